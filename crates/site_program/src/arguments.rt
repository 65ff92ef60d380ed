// What a program's arguments ask of it.
ghost use Rattle.std.specs.Prelude.{◌≡◌};
ghost use Rattle.site_program.specs.Arguments.{asked_by_one, asked_by};

#[derive(Clone, Copy)]
pub enum Asked {
    // the site file of the default name
    Default,
    // the one that the argument names
    Named,
    Help,
    // the argument is empty
    NoName,
    NoOption,
    TooMany,
}

#[tactic(auto, using(crate::proofs::SameLaws::differ), unfolding(crate::specs::Arguments::asked_by_one))]
fn asked_by_one(argument: &[u8]) -> Asked
    ensures { result ≡ asked_by_one argument.now }
{
    if check::same(argument, b"--help") {
        return Asked::Help;
    }
    match argument {
        [] => Asked::NoName,
        [b'-', ..] => Asked::NoOption,
        _ => Asked::Named,
    }
}

// Of so many arguments, the first of which is given.
#[tactic(auto, unfolding(crate::specs::Arguments::asked_by))]
pub fn asked_by(count: usize, first: &[u8]) -> Asked
    ensures { result ≡ asked_by count first.now }
{
    match count {
        0 => Asked::Default,
        1 => asked_by_one(first),
        _ => Asked::TooMany,
    }
}
