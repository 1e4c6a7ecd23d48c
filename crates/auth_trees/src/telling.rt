//! Whether a node has the demanded function, with one comparison of long arguments however many nodes differ at their ends alone.

ghost use Rattle.std.specs.Prelude.{◌≡◌, true};
ghost use Rattle.auth_spec.specs.Demands.{same_function};
ghost use Rattle.auth_trees.specs.Given.{arguments};

use crate::nodes::Node;
use invoke_types::Function;
use std::alloc::Global;
use value_paths::{Cases, Numbered, differ_at, same_until};
use value_types::{ScVal, xdr_size};
use xdr_core::NoMemory;

/// The bytes of XDR from which on arguments are long. Shorter ones are compared sooner than told apart.
const LONG: u64 = 512;

/// Returns the arguments of a call or of a constructor.
fn arguments(function: &Function) -> &[ScVal]
    ensures { result.now ≡ arguments function.now }
{
    match function {
        Function::ContractFn(call) => call.args.as_slice(),
        Function::CreateContract(_) => &[],
        Function::CreateContractV2(create) => create.constructor_args.as_slice(),
    }
}

/// The arguments of nodes by their numbers.
#[derive(Clone, Copy)]
struct Listed<'t, 'a> {
    nodes: &'t [Node<'a>],
}

impl<'t, 'a> Numbered for Listed<'t, 'a> {
    fn values(&self, number: usize) -> &[ScVal] {
        match self.nodes.get(number) {
            None => &[],
            Some(node) => arguments(&node.tree.function),
        }
    }
}

/// Whether arguments are long.
fn are_long(args: &[ScVal]) -> bool {
    let mut size = 0u64;
    for value in args {
        size = size.saturating_add(xdr_size(value));
        if size >= LONG {
            return true;
        }
    }
    false
}

/// Tells nodes with long arguments apart.
pub(crate) fn tell_apart(alloc: Global, nodes: &[Node<'_>]) -> Result<Cases, NoMemory> {
    let mut cases = Cases::new(alloc);
    let listed = Listed { nodes };
    for number in 0..nodes.len() {
        if are_long(listed.values(number)) {
            cases.add(&listed, number)?;
        }
    }
    Ok(cases)
}

/// What helps to tell nodes from a demanded function. Nothing that is claimed rests on it.
#[derive(Drop)]
pub(crate) struct Hint {
    /// Where the cases of the nodes end for its arguments, if these are long.
    end: Option<usize>,
    /// A place at which its arguments differ from those of a node for which they end there too. It is empty if none is known.
    place: Vec<usize>,
}

impl Hint {
    /// Prepares for a function. Takes no memory.
    pub(crate) fn new(cases: &Cases, nodes: &Vec<Node<'_>>, function: &Function) -> Hint {
        let args = arguments(function);
        let end = if are_long(args) {
            cases.end(&Listed { nodes }, args)
        } else {
            None
        };
        Hint {
            end,
            place: Vec::new(*nodes.allocator()),
        }
    }

    /// Keeps the place at which the arguments of a node differ from those of the function. If memory runs out, none is known.
    fn learn(&mut self, function: &Function, other: &Function) {
        if self.end.is_some()
            && self.place.is_empty()
            && differ_in_arguments_alone(function, other)
        {
            let _same = same_until(arguments(function), arguments(other), &mut self.place);
        }
    }
}

/// Whether two functions that differ can do so in their arguments alone.
fn differ_in_arguments_alone(one: &Function, other: &Function) -> bool {
    match (one, other) {
        (Function::ContractFn(x), Function::ContractFn(y)) => {
            x.contract == y.contract && x.function == y.function
        }
        (Function::CreateContractV2(x), Function::CreateContractV2(y)) => {
            x.preimage == y.preimage && x.executable == y.executable
        }
        _ => false,
    }
}

/// Whether the function of the node with a number is seen to be another one, without a comparison of all arguments.
fn are_told_apart(
    cases: &Cases,
    hint: &Hint,
    number: usize,
    own: &Function,
    function: &Function,
) -> bool
    ensures { result ≡ true → own.now ≡ function.now → ⊥ }
{
    let Some(end) = hint.end else {
        return false;
    };
    let (args, others) = (arguments(own), arguments(function));
    if let Some(place) = cases.place_between(number, end) {
        if differ_at(args, others, place) {
            return true;
        }
    }
    differ_at(args, others, &hint.place)
}

/// Whether the node with a number, whose function is its own, has this function.
pub(crate) fn is_same(
    cases: &Cases,
    hint: &mut Hint,
    number: usize,
    own: &Function,
    function: &Function,
) -> bool
    ensures { result ≡ same_function own.now function.now }
{
    if are_told_apart(cases, hint, number, own, function) {
        return false;
    }
    let same = *own == *function;
    if !same {
        hint.learn(function, own);
    }
    same
}
