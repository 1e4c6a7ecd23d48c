//! Lines as JSON: a call is an object with what happened inside it.

use crate::line::{Ending, Line, Manner, What};
use crate::names::{access_name, code_name, outcome_name, type_name};
use crate::short::{
    code_of, push_address, push_function, push_key, push_met, push_text, push_value,
};
use crate::summary::{Bytes, Summary};
use crate::tested::Tested;
use budget_meter::Used;
use contract_storage::{Access, Met, Outcome};
use invoke_types::{ContractEvent, Function};
use ledger_types::LedgerKey;
use serde_json::{Map, Value, put};
use std::alloc::{AllocError, Global};
use value_types::{ScAddress, ScError, ScVal};

/// An object.
type Members = Map<String, Value>;

/// A call that has not ended yet.
#[derive(Drop)]
struct Open {
    call: Members,
    inside: Vec<Value>,
}

/// The calls that have not ended yet, the outermost first, and what happened outside of all calls.
#[derive(Drop)]
struct Tree {
    open: Vec<Open>,
    items: Vec<Value>,
}

impl Tree {
    /// Puts an item into the innermost call.
    fn add(&mut self, item: Value) -> Result<(), AllocError> {
        match self.open.pop() {
            Some(mut open) => {
                open.inside.push(item)?;
                self.open.push(open)?;
            }
            None => self.items.push(item)?,
        }
        Ok(())
    }

    /// Puts a call that was taken out of the open ones into the one around it.
    fn close(&mut self, alloc: Global, call: Open) -> Result<(), AllocError> {
        let Open { mut call, inside } = call;
        put(&mut call, alloc, "inside", Value::Array(inside))?;
        self.add(Value::Object(call))
    }
}

/// The document of a run: its calls, how many lines are left out, and what is said after them. Numbers of 64 bits are text, but
/// for the count of lines.
pub fn document(
    alloc: Global,
    lines: &[Line],
    left_out: u64,
    summary: Summary<'_>,
) -> Result<String, AllocError> {
    let mut document = Map::new(alloc);
    put(&mut document, alloc, "calls", items_of(alloc, lines)?)?;
    put(&mut document, alloc, "left_out", Value::from(left_out))?;
    put_summary(alloc, &mut document, summary)?;
    Value::Object(document).to_string(alloc)
}

/// Puts what is said after the lines.
fn put_summary(
    alloc: Global,
    document: &mut Members,
    summary: Summary<'_>,
) -> Result<(), AllocError> {
    let archived = keys_value(alloc, summary.archived)?;
    put(document, alloc, "archived", archived)?;
    put(
        document,
        alloc,
        "events",
        events_value(alloc, summary.events)?,
    )?;
    put(document, alloc, "bytes", bytes_value(alloc, summary.bytes)?)?;
    let mut sums = Map::new(alloc);
    put_sums(alloc, &mut sums, summary.used)?;
    put(document, alloc, "used", Value::Object(sums))?;
    put(document, alloc, "result", text_value(alloc, summary.codes)?)?;
    Ok(())
}

/// What happened outside of all calls, in order: mostly one call, with all the others inside. Values, keys, addresses and
/// functions are in short form. A call whose end is left out has none.
fn items_of(alloc: Global, lines: &[Line]) -> Result<Value, AllocError> {
    let mut tree = Tree {
        open: Vec::new(alloc),
        items: Vec::new(alloc),
    };
    let mut tested = Tested::new();
    for line in lines {
        tested.see(&line.what);
        add_line(alloc, &mut tree, &line.what, tested)?;
    }
    for _ in 0..tree.open.len() {
        if let Some(call) = tree.open.pop() {
            tree.close(alloc, call)?;
        }
    }
    let Tree { items, .. } = tree;
    Ok(Value::Array(items))
}

fn add_line(alloc: Global, tree: &mut Tree, what: &What, tested: Tested) -> Result<(), AllocError> {
    match what {
        What::Called {
            address,
            function,
            args,
        } => {
            let call = call_object(alloc, address, function.as_slice(), args.as_slice())?;
            let inside = Vec::new(alloc);
            tree.open.push(Open { call, inside })?;
            Ok(())
        }
        What::Accessed {
            access,
            key,
            outcome,
        } => tree.add(access_object(alloc, *access, key, *outcome)?),
        What::Demanded {
            address,
            function,
            met,
        } => tree.add(demand_object(alloc, address, function, *met)?),
        What::Emitted(event) => tree.add(event_object(alloc, event)?),
        What::Ended {
            ending,
            took,
            manner,
        } => {
            if let Some(mut open) = tree.open.pop() {
                put_end(alloc, &mut open.call, ending, *took)?;
                put_manner(alloc, &mut open.call, *manner, tested.reason(ending))?;
                tree.close(alloc, open)?;
            }
            Ok(())
        }
    }
}

// ---- objects

fn call_object(
    alloc: Global,
    address: &ScAddress,
    function: &[u8],
    args: &[ScVal],
) -> Result<Members, AllocError> {
    let mut object = object_of(alloc, "call")?;
    put(
        &mut object,
        alloc,
        "contract",
        address_value(alloc, address)?,
    )?;
    let mut name = Vec::new(alloc);
    push_text(alloc, &mut name, function)?;
    put(&mut object, alloc, "function", text_value(alloc, &name)?)?;
    put(&mut object, alloc, "args", list_value(alloc, args)?)?;
    Ok(object)
}

/// Puts how a call ended, and what it took.
fn put_end(
    alloc: Global,
    call: &mut Members,
    ending: &Ending,
    took: Used,
) -> Result<(), AllocError> {
    put(call, alloc, "end", ending_value(alloc, ending)?)?;
    put_sums(alloc, call, took)
}

/// Puts whether a call ran, and why if it did not.
fn put_manner(
    alloc: Global,
    call: &mut Members,
    manner: Manner,
    reason: &str,
) -> Result<(), AllocError> {
    let ran = manner != Manner::NotRun;
    put(call, alloc, "ran", Value::Bool(ran))?;
    if !ran {
        let reason = Value::try_from_str(alloc, reason)?;
        put(call, alloc, "reason", reason)?;
    }
    Ok(())
}

fn ending_value(alloc: Global, ending: &Ending) -> Result<Value, AllocError> {
    match ending {
        Ending::Value(value) => single(alloc, "return", value_value(alloc, value)?),
        Ending::Failed(error) => single(alloc, "fail", error_value(alloc, *error)?),
        Ending::Spent => single(alloc, "fail", text_value(alloc, b"budget")?),
        Ending::Undeclared(key) => {
            let key = single(alloc, "undeclared", key_value(alloc, key)?)?;
            single(alloc, "fail", key)
        }
        Ending::Archived(key) => {
            let key = single(alloc, "archived", key_value(alloc, key)?)?;
            single(alloc, "fail", key)
        }
        Ending::NoMemory => single(alloc, "fail", text_value(alloc, b"no memory")?),
    }
}

fn error_value(alloc: Global, error: ScError) -> Result<Value, AllocError> {
    let mut object = Map::new(alloc);
    let kind = Value::try_from_str(alloc, type_name(error.kind()))?;
    put(&mut object, alloc, "type", kind)?;
    let code = match code_of(error) {
        Some(code) => Value::try_from_str(alloc, code_name(code))?,
        None => Value::from(error.code()),
    };
    put(&mut object, alloc, "code", code)?;
    Ok(Value::Object(object))
}

fn access_object(
    alloc: Global,
    access: Access,
    key: &LedgerKey,
    outcome: Outcome,
) -> Result<Value, AllocError> {
    let mut object = object_of(alloc, access_name(access))?;
    put(&mut object, alloc, "key", key_value(alloc, key)?)?;
    let outcome = Value::try_from_str(alloc, outcome_name(access, outcome))?;
    put(&mut object, alloc, "outcome", outcome)?;
    Ok(Value::Object(object))
}

fn demand_object(
    alloc: Global,
    address: &ScAddress,
    function: &Function,
    met: Met,
) -> Result<Value, AllocError> {
    let mut object = object_of(alloc, "demand")?;
    put(
        &mut object,
        alloc,
        "address",
        address_value(alloc, address)?,
    )?;
    let mut text = Vec::new(alloc);
    push_function(alloc, &mut text, function)?;
    put(&mut object, alloc, "function", text_value(alloc, &text)?)?;
    let mut outcome = Vec::new(alloc);
    push_met(&mut outcome, met)?;
    put(&mut object, alloc, "outcome", text_value(alloc, &outcome)?)?;
    Ok(Value::Object(object))
}

fn event_object(alloc: Global, event: &ContractEvent) -> Result<Value, AllocError> {
    let mut object = object_of(alloc, "event")?;
    if let Some(contract) = event.contract_id {
        let address = address_value(alloc, &ScAddress::Contract(contract))?;
        put(&mut object, alloc, "contract", address)?;
    }
    let topics = list_value(alloc, event.topics.as_slice())?;
    put(&mut object, alloc, "topics", topics)?;
    put(&mut object, alloc, "data", value_value(alloc, &event.data)?)?;
    Ok(Value::Object(object))
}

/// Events, each as an object.
fn events_value(alloc: Global, events: &[ContractEvent]) -> Result<Value, AllocError> {
    let mut list = Vec::new(alloc);
    for event in events {
        list.push(event_object(alloc, event)?)?;
    }
    Ok(Value::Array(list))
}

// ---- members

/// An object that says what it is.
fn object_of(alloc: Global, what: &str) -> Result<Members, AllocError> {
    let mut object = Map::new(alloc);
    put(
        &mut object,
        alloc,
        "what",
        Value::try_from_str(alloc, what)?,
    )?;
    Ok(object)
}

/// An object with one member.
fn single(alloc: Global, name: &str, value: Value) -> Result<Value, AllocError> {
    let mut object = Map::new(alloc);
    put(&mut object, alloc, name, value)?;
    Ok(Value::Object(object))
}

fn text_value(alloc: Global, text: &[u8]) -> Result<Value, AllocError> {
    Ok(Value::String(String::from_utf8_lossy(alloc, text)?))
}

fn put_sums(alloc: Global, members: &mut Members, used: Used) -> Result<(), AllocError> {
    let instructions = number_value(alloc, used.instructions)?;
    put(members, alloc, "instructions", instructions)?;
    put(members, alloc, "memory", number_value(alloc, used.memory)?)
}

fn number_value(alloc: Global, number: u64) -> Result<Value, AllocError> {
    Ok(Value::String(format!(in alloc; "{number}")?))
}

/// The bytes of a call beside their limits. Other operations have none.
fn bytes_value(alloc: Global, bytes: Option<Bytes>) -> Result<Value, AllocError> {
    match bytes {
        None => Ok(Value::Null),
        Some(bytes) => {
            let mut object = Map::new(alloc);
            put(&mut object, alloc, "read", number_value(alloc, bytes.read)?)?;
            let most_read = Value::from(bytes.most_read);
            put(&mut object, alloc, "most_read", most_read)?;
            let written = number_value(alloc, bytes.written)?;
            put(&mut object, alloc, "written", written)?;
            let most_written = Value::from(bytes.most_written);
            put(&mut object, alloc, "most_written", most_written)?;
            Ok(Value::Object(object))
        }
    }
}

fn address_value(alloc: Global, address: &ScAddress) -> Result<Value, AllocError> {
    let mut text = Vec::new(alloc);
    push_address(alloc, &mut text, address)?;
    text_value(alloc, &text)
}

fn key_value(alloc: Global, key: &LedgerKey) -> Result<Value, AllocError> {
    let mut text = Vec::new(alloc);
    push_key(alloc, &mut text, key)?;
    text_value(alloc, &text)
}

/// Keys, each as text.
fn keys_value(alloc: Global, keys: &[LedgerKey]) -> Result<Value, AllocError> {
    let mut list = Vec::new(alloc);
    for key in keys {
        list.push(key_value(alloc, key)?)?;
    }
    Ok(Value::Array(list))
}

fn value_value(alloc: Global, value: &ScVal) -> Result<Value, AllocError> {
    let mut text = Vec::new(alloc);
    push_value(alloc, &mut text, value)?;
    text_value(alloc, &text)
}

/// Values, each as text.
fn list_value(alloc: Global, values: &[ScVal]) -> Result<Value, AllocError> {
    let mut list = Vec::new(alloc);
    for value in values {
        list.push(value_value(alloc, value)?)?;
    }
    Ok(Value::Array(list))
}
