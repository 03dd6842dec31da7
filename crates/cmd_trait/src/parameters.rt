// The parameters of a command.
ghost use Rattle.std.specs.Prelude.{◌≡◌, map, string_bytes};
ghost use Rattle.cmd_trait.specs.InForce.{first_of, second_of};

/// The first parameter, or nothing.
pub fn first_of(given: &[String]) -> &str
    ensures { result.now ≡ first_of (map string_bytes given.now) }
{
    match given.first() {
        Some(first) => first.as_str(),
        None => "",
    }
}

/// The second parameter, or nothing.
pub fn second_of(given: &[String]) -> &str
    ensures { result.now ≡ second_of (map string_bytes given.now) }
{
    match given {
        [_, second, ..] => second.as_str(),
        _ => "",
    }
}
