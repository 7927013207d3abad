// What clients do, as acts that are made before their time is taken.
use crate::fault::BenchFault;
use realm_machine::{Act, Id, Shared, Transport};
use std::alloc::Global;
use wamp_messages::read;

/// An act, and the transport that it is done at.
#[derive(Drop)]
pub struct Planned {
    pub transport: Transport,
    pub act: Act,
}

/// An operation that is measured, which is one act or some.
#[derive(Clone, Copy, Debug, PartialEq, Eq)]
pub enum Operation {
    Publish,
    Call,
    Subscribe,
    Register,
    Connect,
}

impl Operation {
    /// What it does.
    pub fn name(self) -> &'static str {
        match self {
            Operation::Publish => "publish to one member",
            Operation::Call => "call and yield",
            Operation::Subscribe => "subscribe and unsubscribe",
            Operation::Register => "register and unregister",
            Operation::Connect => "connect, HELLO and hang up",
        }
    }
}

fn transport(number: u64) -> Result<Transport, BenchFault> {
    let Ok(number) = u32::try_from(number) else {
        return Err(BenchFault::Number);
    };
    Ok(Transport {
        node: 1,
        boot: 1,
        number,
    })
}

fn said(alloc: Global, draw: u64, text: &str) -> Result<Act, BenchFault> {
    let draw = Id::new(draw).ok_or(BenchFault::Number)?;
    let read = read(alloc, text.as_bytes())?;
    let read = Shared::new(alloc, read)?;
    Ok(Act::Said { draw, read })
}

fn add(plan: &mut Vec<Planned>, number: u64, act: Act) -> Result<(), BenchFault> {
    let transport = transport(number)?;
    plan.push(Planned { transport, act })?;
    Ok(())
}

// Adds the message of this text, said at the transport of this number, which is the draw as well.
fn add_text(
    alloc: Global,
    plan: &mut Vec<Planned>,
    number: u64,
    text: &str,
) -> Result<(), BenchFault> {
    let act = said(alloc, number, text)?;
    add(plan, number, act)
}

// A client connects and opens a session.
fn add_opening(alloc: Global, plan: &mut Vec<Planned>, number: u64) -> Result<(), BenchFault> {
    add(plan, number, Act::Connect)?;
    add_text(alloc, plan, number, "[1,\"realm1\",{}]")
}

fn add_subscription(
    alloc: Global,
    plan: &mut Vec<Planned>,
    number: u64,
    matching: &str,
    topic: &str,
) -> Result<(), BenchFault> {
    let text = format!(in alloc; "[32,1,{{\"match\":\"{}\"}},\"{}\"]", matching, topic)?;
    add_text(alloc, plan, number, text.as_str())
}

fn add_registration(
    alloc: Global,
    plan: &mut Vec<Planned>,
    number: u64,
    matching: &str,
    procedure: &str,
) -> Result<(), BenchFault> {
    let text = format!(in alloc; "[64,1,{{\"match\":\"{}\"}},\"{}\"]", matching, procedure)?;
    add_text(alloc, plan, number, text.as_str())
}

// The four subscriptions of a session: its own topic, prefix and wildcard, and the topic of all.
fn add_subscriptions(
    alloc: Global,
    plan: &mut Vec<Planned>,
    number: u64,
) -> Result<(), BenchFault> {
    let topic = format!(in alloc; "t{}.a.x", number)?;
    add_subscription(alloc, plan, number, "exact", topic.as_str())?;
    let prefix = format!(in alloc; "f{}.", number)?;
    add_subscription(alloc, plan, number, "prefix", prefix.as_str())?;
    let wildcard = format!(in alloc; "w{}..x", number)?;
    add_subscription(alloc, plan, number, "wildcard", wildcard.as_str())?;
    add_subscription(alloc, plan, number, "exact", "all.a.x")
}

// Its two registrations: its own procedure and prefix.
fn add_registrations(
    alloc: Global,
    plan: &mut Vec<Planned>,
    number: u64,
) -> Result<(), BenchFault> {
    let procedure = format!(in alloc; "p{}.a.x", number)?;
    add_registration(alloc, plan, number, "exact", procedure.as_str())?;
    let prefix = format!(in alloc; "q{}.", number)?;
    add_registration(alloc, plan, number, "prefix", prefix.as_str())
}

/// What the session of this number does at first.
pub fn opening_of(alloc: Global, number: u64) -> Result<Vec<Planned>, BenchFault> {
    let mut plan = Vec::new(alloc);
    add_opening(alloc, &mut plan, number)?;
    add_subscriptions(alloc, &mut plan, number)?;
    add_registrations(alloc, &mut plan, number)?;
    Ok(plan)
}

// A PUBLISH by one session to the topic of another.
fn add_publish(
    alloc: Global,
    plan: &mut Vec<Planned>,
    number: u64,
    other: u64,
) -> Result<(), BenchFault> {
    let text = format!(in alloc; "[16,2,{{}},\"t{}.a.x\"]", other)?;
    add_text(alloc, plan, number, text.as_str())
}

// A CALL by one session of the procedure of another, which yields to this invocation.
fn add_call(
    alloc: Global,
    plan: &mut Vec<Planned>,
    number: u64,
    other: u64,
    invocation: u64,
) -> Result<(), BenchFault> {
    let call = format!(in alloc; "[48,3,{{}},\"p{}.a.x\"]", other)?;
    add_text(alloc, plan, number, call.as_str())?;
    let answer = format!(in alloc; "[70,{},{{}}]", invocation)?;
    add_text(alloc, plan, other, answer.as_str())
}

// A SUBSCRIBE to a topic of nobody else's, and an UNSUBSCRIBE of this id.
fn add_subscribe(
    alloc: Global,
    plan: &mut Vec<Planned>,
    number: u64,
    id: u64,
) -> Result<(), BenchFault> {
    add_subscription(alloc, plan, number, "exact", "new.a.x")?;
    let text = format!(in alloc; "[34,2,{}]", id)?;
    add_text(alloc, plan, number, text.as_str())
}

// A REGISTER of a procedure of nobody else's, and an UNREGISTER of this id.
fn add_register(
    alloc: Global,
    plan: &mut Vec<Planned>,
    number: u64,
    id: u64,
) -> Result<(), BenchFault> {
    add_registration(alloc, plan, number, "exact", "new.a.x")?;
    let text = format!(in alloc; "[66,2,{}]", id)?;
    add_text(alloc, plan, number, text.as_str())
}

fn add_connect(alloc: Global, plan: &mut Vec<Planned>, number: u64) -> Result<(), BenchFault> {
    add_opening(alloc, plan, number)?;
    add(plan, number, Act::Hung)
}

/// Returns the acts of an operation that was done `done` times before, among `sessions` sessions.
pub fn plan_of(
    alloc: Global,
    operation: Operation,
    done: u64,
    sessions: u64,
) -> Result<Vec<Planned>, BenchFault> {
    let mut plan = Vec::new(alloc);
    let sessions = sessions.max(1);
    let number = (done % sessions).saturating_add(1);
    let other = (number % sessions).saturating_add(1);
    let invocation = (done / sessions).saturating_add(1);
    let next = done.saturating_add(1);
    let subscription = sessions
        .saturating_mul(3)
        .saturating_add(1)
        .saturating_add(next);
    let registration = sessions.saturating_mul(2).saturating_add(next);
    match operation {
        Operation::Publish => add_publish(alloc, &mut plan, number, other)?,
        Operation::Call => add_call(alloc, &mut plan, number, other, invocation)?,
        Operation::Subscribe => add_subscribe(alloc, &mut plan, number, subscription)?,
        Operation::Register => add_register(alloc, &mut plan, number, registration)?,
        Operation::Connect => add_connect(alloc, &mut plan, sessions.saturating_add(next))?,
    }
    Ok(plan)
}
