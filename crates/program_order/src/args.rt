// The options of the command line, as its parser takes them.
ghost use Rattle.std.specs.Prelude.{◌≡◌, false, codes};
ghost use Rattle.clap.specs.Words.{rule_of};
ghost use Rattle.program_order.specs.Program.{option_rule, required_rule};

use clap::{Arg, ArgAction};
use std::alloc::Global;

// Returns the option `--name VALUE`, which may be given once. In the help its value is called `value`, and described by `help`.
// Does not allocate.
fn option_arg<'a>(alloc: Global, name: &'a str, value: &'a str, help: &'a str) -> Arg<'a>
    ensures rule { rule_of result ≡ option_rule name.entry.now }
    ensures local { result.global ≡ false }
{
    Arg::new(alloc, name)
        .long(name)
        .value_name(value)
        .help(help)
        .action(ArgAction::Set)
}

pub(crate) fn realm_arg<'a>(alloc: Global) -> Arg<'a>
    ensures rule { rule_of result ≡ option_rule (codes "realm") }
    ensures local { result.global ≡ false }
{
    option_arg(
        alloc,
        "realm",
        "NAME",
        "The realm that is served [default: realm1]",
    )
}

pub(crate) fn nodes_arg<'a>(alloc: Global) -> Arg<'a>
    ensures rule { rule_of result ≡ required_rule (codes "nodes") }
    ensures local { result.global ≡ false }
{
    option_arg(
        alloc,
        "nodes",
        "N",
        "How many nodes the cluster has, 3 to 7",
    )
    .required(true)
}

pub(crate) fn port_arg<'a>(alloc: Global) -> Arg<'a>
    ensures rule { rule_of result ≡ required_rule (codes "port") }
    ensures local { result.global ≡ false }
{
    option_arg(
        alloc,
        "port",
        "P",
        "The port of node 1, 1024 to 65529; node I listens on 127.0.0.1 at port P+I-1",
    )
    .required(true)
}

pub(crate) fn key_arg<'a>(alloc: Global) -> Arg<'a>
    ensures rule { rule_of result ≡ required_rule (codes "key") }
    ensures local { result.global ≡ false }
{
    option_arg(
        alloc,
        "key",
        "K",
        "The key of the cluster's random draws, 0 to 18446744073709551615",
    )
    .required(true)
}

pub(crate) fn dir_arg<'a>(alloc: Global) -> Arg<'a>
    ensures rule { rule_of result ≡ option_rule (codes "dir") }
    ensures local { result.global ≡ false }
{
    option_arg(
        alloc,
        "dir",
        "FOLDER",
        "The folder that keeps the nodes' rows, which has to be there [default: they are kept in memory]",
    )
}
