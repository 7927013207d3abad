// Acts as octets: putting one beside writing its message, taking one beside reading its text and writing it.
use crate::bodies::{act_of, text_of};
use crate::fault::BenchFault;
use realm_acts::Read;
use realm_codec::{Act, ActCoder, Coder};
use std::alloc::Global;
use std::time::Instant;
use wamp_messages::{Message, read, write};

// How often the calls take turns; of each its fastest turn is printed.
const TURNS: u64 = 8;

// What is measured: the act, its octets, and the text of its message.
#[derive(Clone, Copy)]
struct Sample<'a> {
    act: &'a Act,
    message: &'a Message,
    octets: &'a [u8],
    text: &'a [u8],
}

// A call that is measured.
#[derive(Clone, Copy)]
enum Call {
    Put,
    Write,
    Take,
    ReadAndWrite,
}

// A call, how many octets it went over, and the nanoseconds that it took in its fastest turn.
#[derive(Clone, Copy)]
struct Timed {
    call: Call,
    octets: usize,
    nanos: u128,
}

impl Timed {
    fn of(call: Call) -> Timed {
        Timed {
            call,
            octets: 0,
            nanos: u128::MAX,
        }
    }
}

// The message that an act says.
fn message_of(act: &Act) -> Option<&Message> {
    let Act::Said { read, .. } = act else {
        return None;
    };
    match read.get() {
        Read::Good(message) => Some(message),
        _ => None,
    }
}

// The calls, each into new memory; each returns how many octets it put, wrote or went over.

fn put(alloc: Global, act: &Act) -> Result<usize, BenchFault> {
    let mut out = Vec::new(alloc);
    ActCoder::put(act, &mut out)?;
    Ok(out.len())
}

fn written(alloc: Global, message: &Message) -> Result<usize, BenchFault> {
    let text = write(alloc, message)?;
    Ok(text.len())
}

fn taken(alloc: Global, octets: &[u8]) -> Result<usize, BenchFault> {
    let (act, rest) = ActCoder::take(alloc, octets)?;
    drop(act);
    Ok(octets.len().saturating_sub(rest.len()))
}

fn written_again(alloc: Global, read: &Read) -> Result<usize, BenchFault> {
    match read {
        Read::Good(message) => written(alloc, message),
        _ => Err(BenchFault::Text),
    }
}

fn read_and_written(alloc: Global, text: &[u8]) -> Result<usize, BenchFault> {
    let read = read(alloc, text)?;
    let octets = written_again(alloc, &read);
    drop(read);
    octets
}

fn make(alloc: Global, sample: &Sample<'_>, call: Call) -> Result<usize, BenchFault> {
    match call {
        Call::Put => put(alloc, sample.act),
        Call::Write => written(alloc, sample.message),
        Call::Take => taken(alloc, sample.octets),
        Call::ReadAndWrite => read_and_written(alloc, sample.text),
    }
}

// Makes the call this often, and keeps its time if no turn before was as fast.
fn turn(
    rt: &HostRuntime,
    sample: &Sample<'_>,
    timed: &mut Timed,
    times: u64,
) -> Result<(), BenchFault> {
    let start = Instant::now(rt)?;
    for _ in 0..times {
        timed.octets = make(rt.alloc(), sample, timed.call)?;
    }
    let taken = start.elapsed(rt)?.as_nanos() / u128::from(times.max(1));
    timed.nanos = timed.nanos.min(taken);
    Ok(())
}

// Makes the calls by turns.
fn measure(
    rt: &HostRuntime,
    sample: &Sample<'_>,
    calls: &mut [Timed],
    times: u64,
) -> Result<(), BenchFault> {
    for _ in 0..TURNS {
        for timed in calls.iter_mut() {
            turn(rt, sample, timed, times)?;
        }
    }
    Ok(())
}

// Prints on standard error the time of a call, and how much of another's it is, in hundredths.
fn tell(rt: &HostRuntime, what: &str, timed: Timed, beside: Timed) {
    let hundredths = timed.nanos.saturating_mul(100) / beside.nanos.max(1);
    let _ = eprintln!(rt;
        "{what}: {} ns, {hundredths} in 100 of {} ns",
        timed.nanos, beside.nanos
    );
}

fn run_over(rt: &HostRuntime, sample: &Sample<'_>, times: u64) -> Result<(), BenchFault> {
    let mut calls = [
        Timed::of(Call::Put),
        Timed::of(Call::Write),
        Timed::of(Call::Take),
        Timed::of(Call::ReadAndWrite),
    ];
    measure(rt, sample, &mut calls, times)?;
    let [put, write, take, again] = calls;
    println!(rt;
        "octets put {}, written {}, taken {}, read and written {}",
        put.octets, write.octets, take.octets, again.octets
    )?;
    tell(rt, "put beside write", put, write);
    tell(rt, "take beside read and write", take, again);
    Ok(())
}

fn run_on(rt: &HostRuntime, act: &Act, text: &[u8], times: u64) -> Result<(), BenchFault> {
    let message = message_of(act).ok_or(BenchFault::Text)?;
    let mut octets = Vec::new(rt.alloc());
    ActCoder::put(act, &mut octets)?;
    let sample = Sample {
        act,
        message,
        octets: octets.as_slice(),
        text,
    };
    run_over(rt, &sample, times)
}

/// Puts and takes a PUBLISH whose text has 200 octets, beside writing it and reading its text, each `times` times a turn; prints how many
/// octets each call went over, and on standard error the nanoseconds that it took in its fastest turn.
pub fn run(rt: &HostRuntime, times: u64) -> Result<(), BenchFault> {
    let text = text_of(rt.alloc())?;
    let act = act_of(rt.alloc(), text.as_slice())?;
    let done = run_on(rt, &act, text.as_slice(), times);
    drop(act);
    done
}
