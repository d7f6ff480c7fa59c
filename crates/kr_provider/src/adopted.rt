//! The keys of a configuration, in the order of the file, and their pages.
ghost use Rattle.std.specs.Prelude.{◌≡◌, ◌+◌, ◌≤◌, true, [], ◌∷◌, ◌++◌, length, map, count_by, MatchOption};
ghost use Rattle.std.specs.List.{list_all, list_any};
ghost use Rattle.std.specs.Str.{bytes_eq};
ghost use Rattle.kr_aes.specs.KeyExpansion.{padded_schedule};
ghost use Rattle.kr_config.specs.Kept.{keeps_row, count_entry_keys, rows_of};
ghost use Rattle.kr_config.specs.Providers.{is_key, is_provider};
ghost use Rattle.kr_provider.specs.KeyPages.{HoldKeys, words_out, key_secret, secrets_among, secrets_in, size_of};
ghost use Rattle.kr_provider.specs.inner.Scan.{HasWords, IsAmong, place_from};
ghost use Rattle.kr_provider.specs.inner.Stack.{IsStack};

use crate::key_pages::KeyPages;
use kr_base::Bytes;
use kr_config::{Entry, Who};

/// What stands for the words of a provider that has no key.
static NO_KEY: [u32; 60] = [0; 60];

/// How many keys there are.
pub(crate) fn count_keys(entries: &[Entry]) -> usize
    requires few { count_entry_keys (rows_of entries.now) ≤ 64 }
    ensures { result ≡ count_entry_keys (rows_of entries.now) }
{
    let mut count = 0;
    for entry in entries {
        count += count_provider_keys(entry.providers.as_slice());
    }
    count
}

/// How many keys there are among providers.
fn count_provider_keys(providers: &[Who]) -> usize
    ensures { result ≡ count_by is_key providers.now }
{
    providers.iter().filter(|who| who.is_key()).count()
}

/// Expands each key into a page, where none is taken and there are enough.
pub(crate) fn keep_all(entries: &[Entry], pages: &mut KeyPages)
    requires rules { list_all keeps_row (rows_of entries.now) ≡ true }
    requires room { count_entry_keys (rows_of entries.now) ≤ size_of pages.old }
    requires stack { IsStack pages.old }
    requires none { pages.old.out ≡ [] }
    ensures keys { HoldKeys (secrets_in (rows_of entries.now)) pages.new }
    ensures size { size_of pages.new ≡ size_of pages.old }
{
    for entry in entries {
        keep_key_pages(entry.providers.as_slice(), pages);
    }
}

/// Expands each key of these providers into a page.
fn keep_key_pages(providers: &[Who], pages: &mut KeyPages)
    requires rules { list_all is_provider providers.now ≡ true }
    requires stack { IsStack pages.old }
    requires room { length pages.old.out + length (secrets_among providers.now)
        ≤ size_of pages.old }
    ensures stack { IsStack pages.new }
    ensures size { size_of pages.new ≡ size_of pages.old }
    ensures held { words_out pages.new ≡ words_out pages.old
        ++ map padded_schedule (secrets_among providers.now) }
{
    for who in providers {
        if let Some(secret) = key_secret(who) {
            pages.keep(secret.as_slice());
        }
    }
}

/// The words of the provider's key, which is one of the entries' keys.
pub(crate) fn provider_key_words<'a>(
    entries: &[Entry],
    pages: &'a KeyPages,
    who: &Who,
) -> &'a [u32; 60]
    requires few { count_entry_keys (rows_of entries.now) ≤ 64 }
    requires keys { HoldKeys (secrets_in (rows_of entries.now)) pages.now }
    requires among { IsAmong (secrets_in (rows_of entries.now)) who.now }
    ensures { HasWords who.now result.now }
{
    let Some(secret) = key_secret(who) else {
        return &NO_KEY;
    };
    let Some(place) = secret_place(entries, secret.as_slice()) else {
        unreachable!();
    };
    pages.words(place)
}

/// The place of the secret among those of the entries. Where two are the same, so are their words.
fn secret_place(entries: &[Entry], secret: &[u8]) -> Option<usize>
    requires few { count_entry_keys (rows_of entries.now) ≤ 64 }
    ensures { result ≡ place_from 0 (secrets_in (rows_of entries.now)) secret.now }
{
    let mut before = 0;
    for entry in entries {
        let providers = entry.providers.as_slice();
        let place = provider_key_place(providers, secret, before);
        if place.is_some() {
            return place;
        }
        before += count_provider_keys(providers);
    }
    None
}

/// The same among providers, before which so many keys stand.
fn provider_key_place(providers: &[Who], secret: &[u8], before: usize) -> Option<usize>
    requires few { before + length (secrets_among providers.now) ≤ 64 }
    ensures { result ≡ place_from before (secrets_among providers.now) secret.now }
{
    let mut place = before;
    for who in providers {
        if has_secret(who, secret) {
            return Some(place);
        }
        place += count_secrets(who);
    }
    None
}

/// Whether the provider is a key with this secret.
fn has_secret(who: &Who, secret: &[u8]) -> bool
    ensures { result ≡ list_any (λ s. bytes_eq s secret.now) (key_secret who.now) }
{
    match who {
        Who::Identity => false,
        Who::Aescbc(_, own) => own.as_slice() == secret,
        Who::Aesgcm(_, own) => own.as_slice() == secret,
        Who::Kms(_) => false,
    }
}

/// One for a key, else none.
fn count_secrets(who: &Who) -> usize
    ensures { result ≡ length (key_secret who.now) }
{
    match who {
        Who::Identity => 0,
        Who::Aescbc(_, _) => 1,
        Who::Aesgcm(_, _) => 1,
        Who::Kms(_) => 0,
    }
}

/// The secret of a provider that is a key.
fn key_secret(who: &Who) -> Option<&Bytes>
    ensures { MatchOption result (key_secret who.now ≡ [])
        (λ secret. key_secret who.now ≡ secret.now ∷ []) }
{
    match who {
        Who::Identity => None,
        Who::Aescbc(_, secret) => Some(secret),
        Who::Aesgcm(_, secret) => Some(secret),
        Who::Kms(_) => None,
    }
}
