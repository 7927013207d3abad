// Random acts at a realm that is saved and loaded at random places, beside the same acts at a realm that is not.
use crate::calling::CANCELING;
use crate::check::Check;
use crate::realm::{HELLO, in_one_text, realm_of, reload, replies, transport};
use rand_chacha::ChaCha20Rng;
use rand_core::SeedableRng;
use rand_core::utils::NextWord;
use realm_machine::{Realm, Say};
use std::alloc::Global;
use std::process::Abort;
use test_checks::check;

const ACTS: u32 = 5_000;

// A number from 1 to this one.
fn draw(words: &mut ChaCha20Rng, most: u32) -> u32 {
    words.next_word() % most.max(1) + 1
}

// One of these texts.
fn one_of(words: &mut ChaCha20Rng, texts: &[&'static str]) -> &'static str {
    let place = words.next_word() as usize % texts.len().max(1);
    match texts.get(place) {
        Some(text) => text,
        None => "",
    }
}

const MATCHES: &[&str] = &["exact", "prefix", "wildcard"];

const PATTERNS: &[&str] = &["a.b", "a", "a.", "a..c", "b", ""];

const URIS: &[&str] = &["a.b", "a", "a.x.c", "b", "c"];

const POLICIES: &[&str] = &["single", "first", "last", "roundrobin", "roundrobin"];

const MODES: &[&str] = &["skip", "kill", "killnowait"];

const FLAGS: &[&str] = &["true", "false"];

fn subscribe(rt: &impl Abort, alloc: Global, words: &mut ChaCha20Rng) -> String {
    let matching = one_of(words, MATCHES);
    let pattern = one_of(words, PATTERNS);
    format!(in alloc;
        "[32,{},{{\"match\":\"{matching}\"}},\"{pattern}\"]",
        draw(words, 9)
    )
    .expect(rt, "room for a text")
}

fn publish(rt: &impl Abort, alloc: Global, words: &mut ChaCha20Rng) -> String {
    let flag = one_of(words, FLAGS);
    let uri = one_of(words, URIS);
    format!(in alloc;
        "[16,{},{{\"acknowledge\":true,\"exclude_me\":{flag}}},\"{uri}\"]",
        draw(words, 9)
    )
    .expect(rt, "room for a text")
}

fn register(rt: &impl Abort, alloc: Global, words: &mut ChaCha20Rng) -> String {
    let matching = one_of(words, MATCHES);
    let policy = one_of(words, POLICIES);
    let pattern = one_of(words, PATTERNS);
    format!(in alloc;
        "[64,{},{{\"match\":\"{matching}\",\"invoke\":\"{policy}\"}},\"{pattern}\"]",
        draw(words, 9)
    )
    .expect(rt, "room for a text")
}

fn call(rt: &impl Abort, alloc: Global, words: &mut ChaCha20Rng) -> String {
    let flag = one_of(words, FLAGS);
    let uri = one_of(words, URIS);
    format!(in alloc;
        "[48,{},{{\"receive_progress\":{flag}}},\"{uri}\"]",
        draw(words, 200)
    )
    .expect(rt, "room for a text")
}

fn cancel(rt: &impl Abort, alloc: Global, words: &mut ChaCha20Rng) -> String {
    let mode = one_of(words, MODES);
    format!(in alloc; "[49,{},{{\"mode\":\"{mode}\"}}]", draw(words, 200)).expect(
        rt,
        "room for a text",
    )
}

fn answer(rt: &impl Abort, alloc: Global, words: &mut ChaCha20Rng) -> String {
    let flag = one_of(words, FLAGS);
    format!(in alloc; "[70,{},{{\"progress\":{flag}}}]", draw(words, 40)).expect(
        rt,
        "room for a text",
    )
}

// A request to leave what this kind is of: a subscription, a registration.
fn withdraw(rt: &impl Abort, alloc: Global, words: &mut ChaCha20Rng, kind: u32) -> String {
    format!(in alloc; "[{kind},{},{}]", draw(words, 9), draw(words, 60)).expect(
        rt,
        "room for a text",
    )
}

fn plain(rt: &impl Abort, alloc: Global, text: &str) -> String {
    String::from_str(alloc, text).expect(rt, "room for a text")
}

// What a client does: most often what makes the realm hold more.
fn act_of(rt: &impl Abort, alloc: Global, words: &mut ChaCha20Rng) -> String {
    match words.next_word() % 40 {
        0..=3 => plain(rt, alloc, "connect"),
        4..=6 => plain(rt, alloc, HELLO),
        7..=8 => plain(rt, alloc, CANCELING),
        9..=13 => subscribe(rt, alloc, words),
        14..=16 => publish(rt, alloc, words),
        17..=22 => register(rt, alloc, words),
        23..=30 => call(rt, alloc, words),
        31 => cancel(rt, alloc, words),
        32..=35 => answer(rt, alloc, words),
        36 => withdraw(rt, alloc, words, 34),
        37 => withdraw(rt, alloc, words, 66),
        38 => plain(rt, alloc, "[6,{},\"a\"]"),
        _ => plain(rt, alloc, "hang up"),
    }
}

fn gone(rt: &impl Abort, realm: &mut Realm) -> Vec<Say> {
    realm.gone(1).expect(rt, "what the realm says")
}

// Whether both realms say the same as the node is gone.
fn go_alike(rt: &impl Abort, alloc: Global, plain: &mut Realm, kept: &mut Realm) -> bool {
    let wanted = gone(rt, plain);
    let wanted = in_one_text(rt, alloc, wanted.as_slice());
    let says = gone(rt, kept);
    in_one_text(rt, alloc, says.as_slice()).as_slice() == wanted.as_slice()
}

// Whether both realms say the same to a drawn act.
fn act_alike(
    rt: &impl Abort,
    alloc: Global,
    words: &mut ChaCha20Rng,
    plain: &mut Realm,
    kept: &mut Realm,
) -> bool {
    let number = draw(words, 6);
    let id = u64::from(draw(words, 20));
    let text = act_of(rt, alloc, words);
    let wanted = replies(rt, alloc, plain, transport(number), id, text.as_str());
    let says = replies(rt, alloc, kept, transport(number), id, text.as_str());
    says.as_slice() == wanted.as_slice()
}

fn run_alike(
    rt: &impl Abort,
    alloc: Global,
    words: &mut ChaCha20Rng,
    plain: &mut Realm,
    kept: &mut Realm,
) {
    for turn in 0..ACTS {
        check!(rt; act_alike(rt, alloc, words, plain, kept), turn);
        if words.next_word() % 4 == 0 {
            reload(rt, alloc, kept);
        }
        if words.next_word() % 500 == 0 {
            check!(rt; go_alike(rt, alloc, plain, kept), turn);
        }
    }
}

#[test]
fn a_realm_that_is_loaded_goes_on_as_it_was(rt: HostRuntime) {
    let mut words = ChaCha20Rng::seed_from_u64(51);
    let mut plain = realm_of(&rt, rt.alloc(), 20);
    let mut kept = realm_of(&rt, rt.alloc(), 20);
    run_alike(&rt, rt.alloc(), &mut words, &mut plain, &mut kept);
}
