//! What some words ask for.
ghost use Rattle.inp_args.specs.Examples.{PlaysFiles, PlaysOnThreads, PlaysOddWords, MakesRecords, MigratesFiles, RefusesMigrations, ReadsNumbers, RefusesNumbers, RefusesBounds, RefusesCounts, RefusesMixtures, RefusesForms, RefusesOptions};

/// What some words ask for by the definitions of this crate, worked out by hand. It does nothing: its contract is the
/// point.
#[tactic(auto, unfolding(crate::proofs::Computation::computing))]
pub fn examples()
    ensures files { PlaysFiles }
    ensures threads { PlaysOnThreads }
    ensures odd_words { PlaysOddWords }
    ensures records { MakesRecords }
    ensures migrations { MigratesFiles }
    ensures no_migrations { RefusesMigrations }
    ensures numbers { ReadsNumbers }
    ensures no_numbers { RefusesNumbers }
    ensures no_bounds { RefusesBounds }
    ensures no_counts { RefusesCounts }
    ensures mixtures { RefusesMixtures }
    ensures forms { RefusesForms }
    ensures options { RefusesOptions }
{}
