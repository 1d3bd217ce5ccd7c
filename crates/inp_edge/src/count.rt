// The count of faults.
ghost use Rattle.std.specs.Prelude.{◌≡◌, ◌≤◌};
ghost use Rattle.inp_edge.specs.Count.{faults_after};

// Counts a call that was at fault or was not. The count stays at the greatest `u64`.
pub(crate) fn count_fault(faults: &mut u64, at_fault: bool)
    ensures after { faults.new ≡ faults_after faults.old at_fault }
    ensures never_falls { faults.old ≤ faults.new }
{
    if at_fault {
        *faults = faults.saturating_add(1);
    }
}
