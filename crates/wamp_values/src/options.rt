// What this router reads of the options and details of messages. No function here allocates.
ghost use Rattle.std.specs.Prelude.{◌≡◌, option_map};
ghost use Rattle.serde_json.specs.View.{view};
ghost use Rattle.wamp_values.specs.Options.{flag_in, match_of, match_in, callee_features, is_canceling};
ghost use Rattle.wamp_values.specs.Options.{invoke_of, invoke_in, mode_of, mode_in, mode_named};

use crate::found::{Found, bool_option, text_at};
use serde_json::Value;
use wamp_ids::{Invoke, Match, Mode};

/// Returns the truth value of a key, or `missing` if the key is absent; `None` if its value has another type.
pub fn flag_in(options: &Value, key: &str, missing: bool) -> Option<bool>
    ensures { result ≡ flag_in key.now missing (view options.now) }
{
    match bool_option(options, key) {
        Found::Absent => Some(missing),
        Found::Is(flag) => Some(flag),
        Found::Other => None,
    }
}

/// Returns the options' `match`, or exact if they have none; `None` if it is not the name of a match.
pub fn match_in(options: &Value) -> Option<Match>
    ensures { result ≡ match_in (view options.now) }
{
    match text_at(options, "match") {
        Found::Absent => Some(Match::Exact),
        Found::Is(name) => match_of(name),
        Found::Other => None,
    }
}

fn match_of(name: &str) -> Option<Match>
    ensures { result ≡ match_of name.now }
{
    match name {
        "exact" => Some(Match::Exact),
        "prefix" => Some(Match::Prefix),
        "wildcard" => Some(Match::Wildcard),
        _ => None,
    }
}

/// Returns the options' `invoke`, or single if they have none; `None` if it is not the name of a policy.
pub fn invoke_in(options: &Value) -> Option<Invoke>
    ensures { result ≡ invoke_in (view options.now) }
{
    match text_at(options, "invoke") {
        Found::Absent => Some(Invoke::Single),
        Found::Is(name) => invoke_of(name),
        Found::Other => None,
    }
}

fn invoke_of(name: &str) -> Option<Invoke>
    ensures { result ≡ invoke_of name.now }
{
    match name {
        "single" => Some(Invoke::Single),
        "first" => Some(Invoke::First),
        "last" => Some(Invoke::Last),
        "roundrobin" => Some(Invoke::RoundRobin),
        _ => None,
    }
}

/// Returns the options' `mode`, or killnowait if they have none; `None` if it is not the name of a mode.
pub fn mode_in(options: &Value) -> Option<Mode>
    ensures { result ≡ mode_in (view options.now) }
{
    match text_at(options, "mode") {
        Found::Absent => Some(Mode::KillNoWait),
        Found::Is(name) => mode_of(name),
        Found::Other => None,
    }
}

/// Returns the options' `mode`; `None` if it is absent or not the name of a mode.
pub fn mode_named(options: &Value) -> Option<Mode>
    ensures { result ≡ mode_named (view options.now) }
{
    match text_at(options, "mode") {
        Found::Absent => None,
        Found::Is(name) => mode_of(name),
        Found::Other => None,
    }
}

fn mode_of(name: &str) -> Option<Mode>
    ensures { result ≡ mode_of name.now }
{
    match name {
        "skip" => Some(Mode::Skip),
        "kill" => Some(Mode::Kill),
        "killnowait" => Some(Mode::KillNoWait),
        _ => None,
    }
}

/// Returns whether a HELLO's details announce call canceling as a callee.
pub fn is_canceling(details: &Value) -> bool
    ensures { result ≡ is_canceling (view details.now) }
{
    let Some(features) = callee_features(details) else {
        return false;
    };
    match bool_option(features, "call_canceling") {
        Found::Absent => false,
        Found::Is(flag) => flag,
        Found::Other => false,
    }
}

fn callee_features(details: &Value) -> Option<&Value>
    ensures { option_map (λ features. view features.now) result ≡ callee_features (view details.now) }
{
    let roles = details.get("roles")?;
    let callee = roles.get("callee")?;
    callee.get("features")
}
