//! The fixed texts.
ghost use Rattle.std.specs.Prelude.{◌≡◌};
ghost use Rattle.inp_tool.specs.declared.outcome.Outcome.{Outcome};
ghost use Rattle.inp_tool.specs.Outcome.{text_of};

pub(crate) fn unread() -> &'static str
    ensures text { result.now ≡ text_of Outcome.Unread }
{
    "inputplay: read failed\n"
}

pub(crate) fn too_long() -> &'static str
    ensures text { result.now ≡ text_of Outcome.TooLong }
{
    "inputplay: input too long\n"
}

pub(crate) fn no_memory() -> &'static str
    ensures text { result.now ≡ text_of Outcome.NoMemory }
{
    "inputplay: out of memory\n"
}
