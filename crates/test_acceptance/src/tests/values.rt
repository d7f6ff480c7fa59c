//! What commands on one value leave.
use super::{BEGIN, Call, DECRYPT, ENCRYPT, Left, both, run_call};
use kr_base::{Bytes, NoMemory};
use std::alloc::Global;
use std::test::Fail;

/// Providers, as a configuration names them: identity, aescbc under the bytes 0 to 15, and aesgcm
/// under 16 zeros.
const BARE: &str = r#"{"identity":{}}"#;

const K16: &str = r#"{"aescbc":{"keys":[{"name":"key1","secret":"AAECAwQFBgcICQoLDA0ODw=="}]}}"#;

const Z16: &str = r#"{"aesgcm":{"keys":[{"name":"g","secret":"AAAAAAAAAAAAAAAAAAAAAA=="}]}}"#;

/// Words of a command on an object at the empty path.
const ENCRYPT_AT_NONE: &str = "encrypt|--config|c.json|--resource|secrets|--path|";

/// Bytes as a test writes them: a text, and behind a bar bytes in hex.
fn bytes(alloc: Global, text: &str) -> Result<Bytes, NoMemory> {
    let (front, digits) = match text.split_once('|') {
        Some(parts) => parts,
        None => (text, ""),
    };
    let Ok(rest) = hex::decode(alloc, digits) else {
        return Err(NoMemory);
    };
    let all = joined(alloc, front.as_bytes(), rest.as_slice());
    drop(rest);
    all
}

fn joined(alloc: Global, front: &[u8], rest: &[u8]) -> Result<Bytes, NoMemory> {
    let mut all = Vec::from_slice(alloc, front)?;
    all.extend_from_slice(rest)?;
    Ok(Bytes::from_vec(all))
}

/// A value under `key1` whose IV makes the padded `hello` the plain text of FIPS 197's example for
/// 16 bytes of key.
const HELLO: &str =
    "k8s:enc:aescbc:v1:key1:|68744e5f2b5e6d7c8392a1b0c7d6e5f469c4e0d86a7b0430d8cdb78070b4c55a";

/// Sixteen zero bytes, and as they are sealed under zeros: the GCM specification's second test
/// case.
const ZEROS: &str = "|00000000000000000000000000000000";

const SEALED_ZEROS: &str =
    "k8s:enc:aesgcm:v1:g:|0000000000000000000000000388dace60b6a392f328c2b971b2fe78ab6e47d42cec13bdf53a67b21257bddf";

/// The input of a command, and what its random source has.
#[derive(Clone, Copy)]
struct Given<'a> {
    input: &'a str,
    drawn: &'a str,
}

/// What a command leaves.
#[derive(Clone, Copy)]
struct Wanted<'a> {
    output: &'a str,
    line: &'a str,
    status: u8,
}

fn given_input<'a>(input: &'a str, drawn: &'a str) -> Given<'a> {
    Given { input, drawn }
}

fn leaving<'a>(output: &'a str, line: &'a str, status: u8) -> Wanted<'a> {
    Wanted {
        output,
        line,
        status,
    }
}

fn is_wanted(
    alloc: Global,
    left: Result<Left, NoMemory>,
    wanted: Wanted<'_>,
) -> Result<bool, NoMemory> {
    let (left, output) = both(left, bytes(alloc, wanted.output))?;
    let is = left.output.as_slice() == output.as_slice()
        && left.errors.as_slice() == wanted.line.as_bytes()
        && left.status == wanted.status
        && left.dice_is_back;
    drop(left);
    drop(output);
    Ok(is)
}

/// A configuration with these two providers for secrets.
fn two_provider_config(alloc: Global, first: &str, second: &str) -> Result<String, NoMemory> {
    match format!(in alloc;
        "{}[\"secrets\"],\"providers\":[{},{}]}}]}}",
        BEGIN, first, second
    ) {
        Ok(config) => Ok(config),
        Err(_) => Err(NoMemory),
    }
}

/// Whether a command on an object, with these two providers for secrets, leaves what is wanted.
fn converts(
    alloc: Global,
    words: &str,
    first: &str,
    second: &str,
    given: Given<'_>,
    wanted: Wanted<'_>,
) -> Result<bool, NoMemory> {
    let given = both(bytes(alloc, given.input), bytes(alloc, given.drawn));
    let (config, given) = both(two_provider_config(alloc, first, second), given)?;
    let (input, drawn) = given;
    let call = Call {
        words,
        config: config.as_str(),
        input: input.as_slice(),
        dice: drawn.as_slice(),
    };
    let left = run_call(alloc, &call);
    drop(config);
    drop(input);
    drop(drawn);
    is_wanted(alloc, left, wanted)
}

#[test]
fn encrypts_by_each_provider(rt: HostRuntime) -> Result<(), Fail> {
    let alloc = rt.alloc();
    assert!(rt;
        converts(
            alloc,
            ENCRYPT,
            K16,
            BARE,
            given_input("hello", "|68744e5f2b5e6d7c8392a1b0c7d6e5f4"),
            leaving(HELLO, "", 0)
        )?
    );
    assert!(rt;
        converts(
            alloc,
            ENCRYPT_AT_NONE,
            Z16,
            BARE,
            given_input(ZEROS, "|000000000000000000000000"),
            leaving(SEALED_ZEROS, "", 0)
        )?
    );
    assert!(rt;
        converts(
            alloc,
            ENCRYPT,
            BARE,
            K16,
            given_input("k8s:enc:x", ""),
            leaving("", "kmsrest: refused 13 LooksEncrypted\n", 1)
        )?
    );
    Ok(())
}

/// Whether `decrypt`, with these two providers for secrets, opens `HELLO` and says this line of it.
fn opens_hello(alloc: Global, first: &str, second: &str, line: &str) -> Result<bool, NoMemory> {
    let wanted = leaving("hello", line, 0);
    converts(
        alloc,
        DECRYPT,
        first,
        second,
        given_input(HELLO, ""),
        wanted,
    )
}

#[test]
fn decrypts_by_each_provider(rt: HostRuntime) -> Result<(), Fail> {
    assert!(rt; opens_hello(rt.alloc(), K16, BARE, "fresh\n")?);
    assert!(rt; opens_hello(rt.alloc(), BARE, K16, "stale\n")?);
    Ok(())
}
