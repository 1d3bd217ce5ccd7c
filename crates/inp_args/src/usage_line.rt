//! How the program is called.
ghost use Rattle.std.specs.Prelude.{◌≡◌};
ghost use Rattle.inp_args.specs.Usage.{usage_text};

/// The line that says how the program is called, with its line feed.
pub fn usage() -> &'static str
    ensures text { result.now ≡ usage_text }
{
    "usage: inputplay [--threads] [--history] [--idle N] FILE, or inputplay --migrate FILE, or inputplay --make NUMBER [--count COUNT]\n"
}
