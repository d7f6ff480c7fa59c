//! The characters that a line may hold.
ghost use Rattle.std.specs.Prelude.{◌≡◌};
ghost use Rattle.std.specs.List.{list_all};
ghost use Rattle.std.specs.Str.{chars};
ghost use Rattle.kr_yaml.specs.Characters.{is_allowed};

/// Whether a line may hold the character.
fn is_allowed(character: char) -> bool
    ensures { result ≡ is_allowed character }
{
    matches!(character,
        '\t'
        | '\u{20}'..='\u{7E}'
        | '\u{A0}'..='\u{2027}'
        | '\u{202A}'..='\u{D7FF}'
        | '\u{E000}'..='\u{FEFE}'
        | '\u{FF00}'..='\u{FFFD}'
        | '\u{10000}'..='\u{10FFFF}')
}

/// Whether a line may hold each of its characters.
pub fn are_allowed(line: &str) -> bool
    ensures { result ≡ list_all is_allowed (chars line.now) }
{
    for character in line.chars() {
        if !is_allowed(character) {
            return false;
        }
    }
    true
}
