ghost use Rattle.std.specs.Prelude.{◌≡◌, ◌==◌, true, map};
ghost use Rattle.geode_tool.specs.Words.{is_verify};

/// Whether the words are `verify` and one more, a file.
pub(crate) fn is_verify(words: &[&str]) -> bool
    ensures { result ≡ is_verify (map (λ w. w.now) words.now) }
{
    match words {
        [name, _file] => *name == "verify",
        _ => false,
    }
}
