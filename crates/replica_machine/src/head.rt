//! What is kept of a log in front of its machine's octets: its length, and where nodes 1 to 7 stand after it.
ghost use Rattle.std.specs.Prelude.{◌≡◌, ◌<◌, ◌^◌, ◌++◌, Ok, Err, None, Some, OnOk, IfOk, IfSome, IsOkUnless, MatchResult, List, ℕ};
ghost use Rattle.command_codec.specs.declared.fault.CodecFault.{CodecFault};
ghost use Rattle.replica_machine.specs.declared.fault.SaveFault.TheVariants as save;
ghost use Rattle.replica_machine.specs.Snapshot.{numbers_octets, standing_octets, standing_by, unless_none, standing_reading};
ghost use Rattle.replica_machine.specs.Snapshot.{standings_octets, seven_reading, head_octets, head_reading, head_at};

use crate::fault::SaveFault;
use crate::roll::Standing;
use command_codec::{CodecFault, Form, take_number};

const FLOOR: Form = Form {
    width: 8,
    low: 0,
    high: 1_099_511_627_775,
};

const COUNT: Form = Form {
    width: 8,
    low: 0,
    high: 281_474_976_710_655,
};

const FLAG: Form = Form {
    width: 1,
    low: 0,
    high: 1,
};

/// What is kept of a log but its machine's content.
#[derive(Clone, Copy, Debug, PartialEq, Eq)]
pub struct Head {
    /// The log's length, below 2^40.
    pub floor: u64,
    /// Where nodes 1 to 7 stand after it.
    pub standings: [Standing; 7],
}

impl Head {
    /// Returns the head that these octets begin with, as `AppliedLog::save` writes it, or `None` if they begin with none. Does not look at
    /// what follows it, and does not allocate.
    pub fn read(octets: &[u8]) -> Option<Head>
        ensures head { result ≡ head_at octets.now }
        ensures within { IfSome result (λ head. head.floor < 2 ^ 40) }
    {
        match take_head(octets) {
            Ok((head, _)) => Some(head),
            Err(_) => None,
        }
    }
}

// Appends what is kept of a log: its head, then its machine's octets.
pub(crate) fn put_kept(head: &Head, machine: &[u8], out: &mut Vec<u8>) -> Result<(), SaveFault>
    ensures ok { OnOk result (out.new.items ≡ out.old.items ++ (head_octets head.now.floor head.now.standings ++ machine.now)) }
    ensures fault { IsOkUnless result save.Memory }
{
    put_head(head, out)?;
    out.extend_from_slice(machine)?;
    Ok(())
}

// Appends the head's octets.
fn put_head(head: &Head, out: &mut Vec<u8>) -> Result<(), SaveFault>
    ensures ok { OnOk result (out.new.items ≡ out.old.items ++ head_octets head.now.floor head.now.standings) }
    ensures fault { IsOkUnless result save.Memory }
{
    out.extend_from_slice(&head.floor.to_be_bytes())?;
    put_standings(&head.standings, out)
}

// Appends the octets of the standings, in order.
fn put_standings(standings: &[Standing], out: &mut Vec<u8>) -> Result<(), SaveFault>
    ensures ok { OnOk result (out.new.items ≡ out.old.items ++ standings_octets standings.now) }
    ensures fault { IsOkUnless result save.Memory }
{
    for standing in standings {
        put_standing(*standing, out)?;
    }
    Ok(())
}

fn put_standing(standing: Standing, out: &mut Vec<u8>) -> Result<(), SaveFault>
    ensures ok { OnOk result (out.new.items ≡ out.old.items ++ standing_octets standing) }
    ensures fault { IsOkUnless result save.Memory }
{
    match standing {
        Standing::Unknown => put_numbers(0, 0, 0, out),
        Standing::Live { boot, taken } => put_numbers(boot, 1, taken, out),
        Standing::Gone { boot } => put_numbers(boot, 0, 0, out),
    }
}

// Appends a boot, whether it is live, and how many of its Items took effect.
fn put_numbers(boot: u64, live: u8, taken: u64, out: &mut Vec<u8>) -> Result<(), SaveFault>
    ensures ok { OnOk result (out.new.items ≡ out.old.items ++ numbers_octets boot live taken) }
    ensures fault { IsOkUnless result save.Memory }
{
    out.extend_from_slice(&boot.to_be_bytes())?;
    out.extend_from_slice(&live.to_be_bytes())?;
    out.extend_from_slice(&taken.to_be_bytes())?;
    Ok(())
}

// Returns the head of these octets, and what follows it.
pub(crate) fn take_head(octets: &[u8]) -> Result<(Head, &[u8]), CodecFault>
    ensures reading { MatchResult result (λ read. head_reading octets.now ≡ Ok (read.0, read.1.now))
        (λ fault. head_reading octets.now ≡ Err fault) }
    ensures within { IfOk result (λ read. read.0.floor < 2 ^ 40) }
{
    let (floor, rest) = take_number(FLOOR, octets)?;
    let (standings, rest) = take_seven(rest)?;
    Ok((Head { floor, standings }, rest))
}

// Returns the seven standings at the head of these octets, and what follows them.
fn take_seven(octets: &[u8]) -> Result<([Standing; 7], &[u8]), CodecFault>
    ensures { MatchResult result (λ read. seven_reading octets.now ≡ Ok (read.0, read.1.now))
        (λ fault. seven_reading octets.now ≡ Err fault) }
{
    let (a, rest) = take_standing(octets)?;
    let (b, rest) = take_standing(rest)?;
    let (c, rest) = take_standing(rest)?;
    let (d, rest) = take_standing(rest)?;
    let (e, rest) = take_standing(rest)?;
    let (f, rest) = take_standing(rest)?;
    let (g, rest) = take_standing(rest)?;
    Ok(([a, b, c, d, e, f, g], rest))
}

fn take_standing(octets: &[u8]) -> Result<(Standing, &[u8]), CodecFault>
    ensures { MatchResult result (λ read. standing_reading octets.now ≡ Ok (read.0, read.1.now))
        (λ fault. standing_reading octets.now ≡ Err fault) }
{
    let (boot, rest) = take_number(COUNT, octets)?;
    let (live, rest) = take_number(FLAG, rest)?;
    let (taken, rest) = take_number(COUNT, rest)?;
    let Some(standing) = standing_by(boot, live, taken) else {
        return Err(CodecFault::Range);
    };
    Ok((standing, rest))
}

// Returns the standing of these numbers.
fn standing_by(boot: u64, live: u64, taken: u64) -> Option<Standing>
    ensures { result ≡ standing_by boot live taken }
{
    if live == 1 {
        if boot == 0 {
            return None;
        }
        return Some(Standing::Live { boot, taken });
    }
    if taken != 0 {
        return None;
    }
    if boot == 0 {
        return Some(Standing::Unknown);
    }
    Some(Standing::Gone { boot })
}
