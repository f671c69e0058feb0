//! The choice whether the output is in colours.

ghost use Rattle.std.specs.Prelude.{◌≡◌, option_map};
ghost use Rattle.lint_program.specs.Colours.{wants_colours};

/// The value of `--color`: when the output is in colours.
#[derive(Clone, Copy, Debug, Eq, PartialEq)]
pub enum ColourChoice {
    /// If the output is a terminal that has them.
    Auto,
    /// Always.
    Always,
    /// Never.
    Never,
}

/// Returns whether colours are wanted, by whether the output is a terminal and by the values of the
/// variables `NO_COLOR` and `TERM`. With `Auto` they are if the output is a terminal, `NO_COLOR` is
/// unset or empty, and `TERM` is set and not `dumb`.
pub fn wants_colours(
    choice: ColourChoice,
    is_terminal: bool,
    no_color: Option<&str>,
    term: Option<&str>,
) -> bool
    ensures { result ≡ wants_colours choice is_terminal (option_map (λ w. w.now) no_color.entry)
        (option_map (λ w. w.now) term.entry) }
{
    match choice {
        ColourChoice::Always => true,
        ColourChoice::Never => false,
        ColourChoice::Auto => {
            is_terminal
                && no_color.is_none_or(|word| word.is_empty())
                && term.is_some_and(|word| word != "dumb")
        }
    }
}
