//! Providers in lists, compared with their secrets.
ghost use Rattle.std.specs.Prelude.{◌≡◌};
ghost use Rattle.std.specs.Option.{option_map};
ghost use Rattle.kr_judge.specs.Providers.{same_who, has, unread_writer};

use kr_config::Who;

/// Whether the two are one provider.
pub fn is_same(own: &Who, who: &Who) -> bool
    ensures { result ≡ same_who own.now who.now }
{
    match (own, who) {
        (Who::Identity, Who::Identity) => true,
        (Who::Aescbc(a, s), Who::Aescbc(b, t)) => {
            a.as_str() == b.as_str() && s.as_slice() == t.as_slice()
        }
        (Who::Aesgcm(a, s), Who::Aesgcm(b, t)) => {
            a.as_str() == b.as_str() && s.as_slice() == t.as_slice()
        }
        (Who::Kms(a), Who::Kms(b)) => a.as_str() == b.as_str(),
        _ => false,
    }
}

/// Whether the provider is in the list.
pub fn has(providers: &[Who], who: &Who) -> bool
    ensures { result ≡ has providers.now who.now }
{
    providers.iter().any(|own| is_same(own, who))
}

/// The first provider of one list, which writes, where it isn't in the other.
pub fn unread_writer<'a>(writers: &'a [Who], readers: &[Who]) -> Option<&'a Who>
    ensures { option_map (λ who. who.now) result ≡ unread_writer writers.now readers.now }
{
    match writers {
        [] => None,
        [writer, ..] => if has(readers, writer) {
            None
        } else {
            Some(writer)
        },
    }
}
