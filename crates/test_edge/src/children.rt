//! Links to programs that every system has, and to programs of its shell.
ghost use Rattle.std.specs.Prelude.{◌≡◌};

use kr_base::Annotations;
use kr_edge::{RealWorld, SystemFiles};
use kr_kms::{Kms, World, WrappedRef};
use std::alloc::Global;
use std::fs::{File, OpenOptions};
use std::io::Write;
use std::os::unix::fs::OpenOptionsExt;
use std::process::{Processes, SystemProcess};
use std::rt::Files;

/// Whether the first and the second call passed, and how often the link has failed then.
type Called = (bool, bool, u64);

/// How often a link has failed before and after its first call.
fn faults_of_a_call<L: Kms>(alloc: Global, link: &mut L) -> (u64, u64)
    ensures { (L.link link.new).name ≡ (L.link link.old).name }
{
    let before = link.faults();
    let _status = link.status(alloc).is_ok();
    (before, link.faults())
}

/// The same of a link to a program.
fn faults_at_first<R: Files<File = File> + Processes<Started = SystemProcess>>(
    rt: &R,
    alloc: Global,
    program: &str,
) -> Option<(u64, u64)> {
    let mut world = RealWorld::new(alloc, SystemFiles::new(rt));
    match world.link(alloc, 0, "p", program) {
        Ok(mut link) => {
            let faults = faults_of_a_call(alloc, &mut link);
            world.back_link(0, link);
            Some(faults)
        }
        Err(_) => None,
    }
}

fn call_twice<L: Kms>(alloc: Global, link: &mut L) -> Called
    ensures { (L.link link.new).name ≡ (L.link link.old).name }
{
    let first = link.status(alloc).is_ok();
    let second = link.status(alloc).is_ok();
    (first, second, link.faults())
}

/// What comes of two calls to a program, and how often the world's files have failed.
fn called<R: Files<File = File> + Processes<Started = SystemProcess>>(
    rt: &R,
    alloc: Global,
    program: &str,
) -> (Option<Called>, u64) {
    let mut world = RealWorld::new(alloc, SystemFiles::new(rt));
    match world.link(alloc, 0, "p", program) {
        Ok(mut link) => {
            let calls = call_twice(alloc, &mut link);
            world.back_link(0, link);
            (Some(calls), world.faults())
        }
        Err(_) => (None, world.faults()),
    }
}

fn tells<L: Kms>(alloc: Global, link: &mut L) -> bool
    ensures { (L.link link.new).name ≡ (L.link link.old).name }
{
    match link.status(alloc) {
        Ok(status) => {
            status.version.as_str() == "v2"
                && status.healthz.as_str() == "ok"
                && status.key_id.as_str() == "k"
        }
        Err(_) => false,
    }
}

fn wraps<L: Kms>(alloc: Global, link: &mut L) -> bool
    ensures { (L.link link.new).name ≡ (L.link link.old).name }
{
    match link.wrap(alloc, b"hello") {
        Ok(wrapped) => {
            wrapped.key_id.as_str() == "k" && wrapped.cipher.as_slice() == b"ab".as_slice()
        }
        Err(_) => false,
    }
}

fn unwraps<L: Kms>(alloc: Global, link: &mut L) -> bool
    ensures { (L.link link.new).name ≡ (L.link link.old).name }
{
    let annotations = Annotations::new(alloc);
    let wrapped = WrappedRef {
        cipher: b"ab",
        key_id: "k",
        annotations: &annotations,
    };
    match link.unwrap_source(alloc, &wrapped) {
        Ok(plain) => plain.as_slice() == b"hello".as_slice(),
        Err(_) => false,
    }
}

/// Whether a program told, wrapped and unwrapped as a plugin with the key `k`, and how often the
/// link has failed then.
type Served = (bool, bool, bool, u64);

/// What comes of a call of each kind to a program.
fn served<R: Files<File = File> + Processes<Started = SystemProcess>>(
    rt: &R,
    alloc: Global,
    program: &str,
) -> Option<Served> {
    let mut world = RealWorld::new(alloc, SystemFiles::new(rt));
    match world.link(alloc, 0, "p", program) {
        Ok(mut link) => {
            let told = tells(alloc, &mut link);
            let wrapped = wraps(alloc, &mut link);
            let unwrapped = unwraps(alloc, &mut link);
            let faults = link.faults();
            world.back_link(0, link);
            Some((told, wrapped, unwrapped, faults))
        }
        Err(_) => None,
    }
}

/// Makes a program of the shell, in the folder that the tests run in.
fn make<R: Files<File = File>>(rt: &R, program: &str, text: &str) -> bool {
    let mut how = OpenOptions::new();
    how.write(true).create(true).truncate(true).mode(0o700);
    match how.open(rt, program) {
        Ok(mut file) => file.write_all(text.as_bytes()).is_ok(),
        Err(_) => false,
    }
}

/// Whether a program of the shell tells what it is, the link fails so often then, and it wraps and
/// unwraps where that is never.
fn is_served<R: Files<File = File> + Processes<Started = SystemProcess>>(
    rt: &R,
    alloc: Global,
    program: &str,
    text: &str,
    faults: u64,
) -> bool {
    let made = make(rt, program, text);
    let served = served(rt, alloc, program);
    let _removed = rt.remove_file(program);
    made && served == Some((true, faults == 0, faults == 0, faults))
}

/// What comes of two calls to a program of the shell.
fn called_shell<R: Files<File = File> + Processes<Started = SystemProcess>>(
    rt: &R,
    alloc: Global,
    program: &str,
    text: &str,
) -> Option<Called> {
    if !make(rt, program, text) {
        return None;
    }
    let (calls, _faults) = called(rt, alloc, program);
    let _removed = rt.remove_file(program);
    calls
}

/// The same of one that answers the first call by this line, and the second as a plugin tells what
/// it is.
fn called_after<R: Files<File = File> + Processes<Started = SystemProcess>>(
    rt: &R,
    alloc: Global,
    line: &str,
) -> Option<Called> {
    let status = "{\"healthz\":\"ok\",\"key_id\":\"k\",\"version\":\"v2\"}";
    match format!(in alloc;
        "#!/bin/sh\nread -r l\necho '{line}'\nread -r l\necho '{status}'\nread -r l\n"
    ) {
        Ok(text) => called_shell(rt, alloc, "./kr_edge.after", text.as_str()),
        Err(_) => None,
    }
}

// It looks at the bytes of each request, their numbers among them.
#[test]
fn a_plugin_is_asked_and_answers(rt: HostRuntime) {
    let text = "#!/bin/sh\nread -r l\n\
        [ \"$l\" = '{\"call\":\"status\"}' ] || exit\n\
        echo '{\"healthz\":\"ok\",\"key_id\":\"k\",\"version\":\"v2\"}'\nread -r l\n\
        [ \"$l\" = '{\"call\":\"encrypt\",\"plaintext\":\"aGVsbG8=\",\"uid\":\"1\"}' ] || exit\n\
        echo '{\"ciphertext\":\"YWI=\",\"key_id\":\"k\"}'\nread -r l\n\
        case $l in *'\"ciphertext\":\"YWI=\",\"key_id\":\"k\",\"uid\":\"2\"}') \
        echo '{\"plaintext\":\"aGVsbG8=\"}';; esac\n";
    assert!(rt; is_served(&rt, rt.alloc(), "./kr_edge.serves", text, 0));
}

// It sends the request back, which is no reply; so do both.
#[test]
fn cat_is_no_plugin(rt: HostRuntime) {
    assert!(rt; faults_at_first(&rt, rt.alloc(), "cat") == Some((0, 1)));
    assert!(rt; called(&rt, rt.alloc(), "cat") == (Some((false, false, 2)), 0));
}

// A refusal leaves the link whole; a reply of another kind is none.
#[test]
fn a_refusal_alone_leaves_the_link_whole(rt: HostRuntime) {
    let refused = called_after(&rt, rt.alloc(), "{\"error\":\"x\"}");
    assert!(rt; refused == Some((false, true, 1)));
    let misled = called_after(&rt, rt.alloc(), "{\"plaintext\":\"aGVsbG8=\"}");
    assert!(rt; misled == Some((false, false, 2)));
}

// It prints a line before it is asked. The second call would read the first one's answer.
#[test]
fn a_banner_breaks_the_link(rt: HostRuntime) {
    let text = "#!/bin/sh\necho 'plugin 1.0'\nread -r l\n\
        echo '{\"healthz\":\"ok\",\"key_id\":\"k\",\"version\":\"v2\"}'\nread -r l\n\
        echo '{\"healthz\":\"ok\",\"key_id\":\"k\",\"version\":\"v2\"}'\nread -r l\n";
    let calls = called_shell(&rt, rt.alloc(), "./kr_edge.banner", text);
    assert!(rt; calls == Some((false, false, 2)));
}

// Between two answers it prints a line for its log. The third call would read the second one's
// answer, which has all that it looks for.
#[test]
fn a_line_between_two_answers_breaks_the_link(rt: HostRuntime) {
    let text = "#!/bin/sh\nread -r l\n\
        echo '{\"healthz\":\"ok\",\"key_id\":\"k\",\"version\":\"v2\"}'\nread -r l\n\
        echo 'token renewed'\nread -r l\n\
        echo '{\"ciphertext\":\"YWI=\",\"key_id\":\"k\",\"plaintext\":\"aGVsbG8=\"}'\n\
        read -r l\n";
    assert!(rt; is_served(&rt, rt.alloc(), "./kr_edge.logs", text, 2));
}

// The second call finds it ended.
#[test]
fn a_plugin_may_answer_and_end(rt: HostRuntime) {
    let text = "#!/bin/sh\nread -r l\n\
        echo '{\"healthz\":\"ok\",\"key_id\":\"k\",\"version\":\"v2\"}'\n";
    let calls = called_shell(&rt, rt.alloc(), "./kr_edge.once", text);
    assert!(rt; calls == Some((true, false, 1)));
}

// Both lines come in one write. The first alone would be a reply.
#[test]
fn two_lines_break_the_link(rt: HostRuntime) {
    let text = "#!/bin/sh\nread -r l\n\
        printf '%s\\n%s\\n' '{\"healthz\":\"ok\",\"key_id\":\"k\",\"version\":\"v2\"}' '{}'\n\
        read -r l\necho '{\"healthz\":\"ok\",\"key_id\":\"k\",\"version\":\"v2\"}'\nread -r l\n";
    let calls = called_shell(&rt, rt.alloc(), "./kr_edge.two", text);
    assert!(rt; calls == Some((false, false, 2)));
}

#[test]
fn a_closed_output_breaks_the_link(rt: HostRuntime) {
    let text = "#!/bin/sh\nexec >&-\nread -r l\nread -r l\n";
    let calls = called_shell(&rt, rt.alloc(), "./kr_edge.closed", text);
    assert!(rt; calls == Some((false, false, 2)));
}

#[test]
fn a_line_of_200000_bytes_breaks_the_link(rt: HostRuntime) {
    let text = "#!/bin/sh\nread -r l\nhead -c 200000 /dev/zero\necho\nread -r l\n";
    let calls = called_shell(&rt, rt.alloc(), "./kr_edge.long", text);
    assert!(rt; calls == Some((false, false, 2)));
}

#[test]
fn an_ended_child_is_a_fault(rt: HostRuntime) {
    assert!(rt; called(&rt, rt.alloc(), "true") == (Some((false, false, 2)), 0));
}

// Bytes stand behind its first line; the second call asks nothing.
#[test]
fn yes_says_too_much(rt: HostRuntime) {
    assert!(rt; called(&rt, rt.alloc(), "yes") == (Some((false, false, 2)), 0));
}

#[test]
fn a_missing_program_is_a_fault_of_the_files(rt: HostRuntime) {
    assert!(rt; called(&rt, rt.alloc(), "/no/such/program") == (None, 1));
}
