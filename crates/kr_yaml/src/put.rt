//! Putting a token into the open nodes.
ghost use Rattle.std.specs.Prelude.{◌≡◌, ◌<◌, ◌≤◌, ◌+◌, true, false, [], ◌∷◌, length, take, drop};
ghost use Rattle.std.specs.Prelude.{IfOk, OnOk, None, unwrap_or};
ghost use Rattle.std.specs.Option.{option_map};
ghost use Rattle.kr_yaml.specs.Data.{null};
ghost use Rattle.kr_yaml.specs.Lines.{dash};
ghost use Rattle.kr_yaml.specs.Shown.{view, views};
ghost use Rattle.kr_yaml.specs.inner.Seen.{token_view};
ghost use Rattle.kr_yaml.specs.inner.Open.{closed_value, first_state, next, put, is_repeated, items};
ghost use Rattle.kr_yaml.specs.inner.Open.{doubles, place};
ghost use Rattle.kr_yaml.specs.inner.Frames.{frame_view, frame_views, state_view};
ghost use Rattle.kr_yaml.specs.inner.Puts.{Continues, Begins, Puts};

use crate::open::{OpenNode, close, place};
use crate::open_mapping::OpenMapping;
use crate::place_error::PlaceError;
use crate::token::LineToken;
use crate::tree::Tree;
use kr_base::{List, NoMemory};
use std::alloc::Global;

/// The most levels of lists and mappings.
const LEVELS: usize = 16;

fn or_null(value: Option<Tree>) -> Tree
    ensures { view result ≡ unwrap_or (option_map view value) null }
{
    match value {
        Some(tree) => tree,
        None => Tree::Null,
    }
}

/// Closes the nodes from this one on, the innermost first.
#[tactic(auto, using(crate::proofs::Closing::closed_pop, crate::proofs::Closing::take_pop, crate::proofs::Putting::closed_or_null))]
pub fn close_nodes(
    nodes: &mut Vec<OpenNode>,
    at: usize,
    value: Option<Tree>,
) -> Result<Tree, NoMemory>
    requires { at ≤ length nodes.old.items }
    ensures tree { IfOk result (λ tree. view tree
        ≡ closed_value (frame_views (drop at nodes.old.items)) (option_map view value)) }
    ensures rest { OnOk result (nodes.new.items ≡ take at nodes.old.items) }
{
    let mut tree = or_null(value);
    'nodes: while nodes.len() > at {
        let Some(node) = nodes.pop() else {
            return Ok(tree);
        };
        tree = match close(node, tree) {
            Ok(tree) => tree,
            Err(_) => return Err(NoMemory),
        };
    }
    Ok(tree)
}

/// Goes on with a list in this column, where a dash stands in its own.
fn continue_list(
    column: usize,
    own: usize,
    done: List<Tree>,
    value: Tree,
) -> Result<(OpenNode, Option<Tree>), PlaceError>
    ensures { Continues (next (dash own) (items column (views done.0)) (view value)) false result }
{
    let mut done = done;
    if own != column {
        drop(done);
        drop(value);
        return Err(PlaceError::Indent);
    }
    match done.push(value) {
        Ok(()) => Ok((OpenNode::Items { column, done }, None)),
        Err(refused) => {
            drop(refused);
            drop(done);
            Err(PlaceError::NoMemory)
        }
    }
}

/// Goes on with an open node, whose last item or member has this value.
fn continue_node(
    alloc: Global,
    node: OpenNode,
    value: Tree,
    token: LineToken,
) -> Result<(OpenNode, Option<Tree>), PlaceError>
    ensures { Continues (next (token_view token) (frame_view node) (view value))
        (is_repeated (token_view token) (frame_view node)) result }
{
    match node {
        OpenNode::Items { column, done } => match token {
            LineToken::Dash { column: own } => continue_list(column, own, done, value),
            other => {
                drop(other);
                drop(done);
                drop(value);
                Err(PlaceError::Indent)
            }
        },
        OpenNode::Members(mapping) => match token {
            LineToken::Pair {
                column: own,
                key,
                value: beside,
            } => {
                if own != mapping.column {
                    drop(mapping);
                    drop(value);
                    drop(key);
                    drop(beside);
                    return Err(PlaceError::Indent);
                }
                match mapping.add(alloc, value, key) {
                    Ok(mapping) => Ok((OpenNode::Members(mapping), beside)),
                    Err(why) => {
                        drop(beside);
                        Err(why)
                    }
                }
            }
            other => {
                drop(other);
                drop(mapping);
                drop(value);
                Err(PlaceError::Indent)
            }
        },
    }
}

/// What a token begins where nothing stands yet: a node, or a value.
fn begin(alloc: Global, token: LineToken) -> Result<(Option<OpenNode>, Option<Tree>), NoMemory>
    ensures { IfOk result (λ x. Begins (first_state (token_view token)) x.0 x.1) }
{
    match token {
        LineToken::Dash { column } => Ok((
            Some(OpenNode::Items {
                column,
                done: List::new(alloc),
            }),
            None,
        )),
        LineToken::Pair { column, key, value } => match OpenMapping::begin(alloc, column, key) {
            Ok(mapping) => Ok((Some(OpenNode::Members(mapping)), value)),
            Err(_) => Err(NoMemory),
        },
        LineToken::Leaf { column: _, value } => Ok((None, Some(value))),
    }
}

/// Puts a token that is inside of all nodes.
fn put_innermost(
    alloc: Global,
    nodes: Vec<OpenNode>,
    value: Option<Tree>,
    token: LineToken,
) -> Result<(Vec<OpenNode>, Option<Tree>), PlaceError>
    requires few { length nodes.items ≤ 16 }
    requires inside { place (token_view token) (frame_views nodes.items) ≡ length nodes.items }
    ensures { Puts (put (token_view token) (frame_views nodes.items) (option_map view value))
        (doubles (token_view token) (frame_views nodes.items)) result }
{
    let mut nodes = nodes;
    let None = value else {
        drop(nodes);
        drop(value);
        drop(token);
        return Err(PlaceError::Indent);
    };
    let (node, value) = match begin(alloc, token) {
        Ok(begun) => begun,
        Err(_) => {
            drop(nodes);
            return Err(PlaceError::NoMemory);
        }
    };
    let Some(node) = node else {
        return Ok((nodes, value));
    };
    if nodes.len() >= LEVELS {
        drop(nodes);
        drop(node);
        drop(value);
        return Err(PlaceError::Deep);
    }
    match nodes.push(node) {
        Ok(()) => Ok((nodes, value)),
        Err(refused) => {
            drop(refused);
            drop(nodes);
            drop(value);
            Err(PlaceError::NoMemory)
        }
    }
}

/// Puts a token that is inside of the nodes before this one.
fn put_under_node(
    alloc: Global,
    nodes: Vec<OpenNode>,
    at: usize,
    value: Option<Tree>,
    token: LineToken,
) -> Result<(Vec<OpenNode>, Option<Tree>), PlaceError>
    requires few { length nodes.items ≤ 16 }
    requires inside { at ≡ place (token_view token) (frame_views nodes.items) }
    requires within { at < length nodes.items }
    ensures { Puts (put (token_view token) (frame_views nodes.items) (option_map view value))
        (doubles (token_view token) (frame_views nodes.items)) result }
{
    let mut nodes = nodes;
    let tree = match close_nodes(&mut nodes, at + 1, value) {
        Ok(tree) => tree,
        Err(_) => {
            drop(nodes);
            drop(token);
            return Err(PlaceError::NoMemory);
        }
    };
    let Some(node) = nodes.pop() else {
        drop(nodes);
        drop(tree);
        drop(token);
        return Err(PlaceError::NoMemory);
    };
    let (node, value) = match continue_node(alloc, node, tree, token) {
        Ok(more) => more,
        Err(why) => {
            drop(nodes);
            return Err(why);
        }
    };
    match nodes.push(node) {
        Ok(()) => Ok((nodes, value)),
        Err(_) => Err(PlaceError::NoMemory),
    }
}

/// Puts a token behind those so far, which stand in these nodes.
pub fn put(
    alloc: Global,
    nodes: Vec<OpenNode>,
    value: Option<Tree>,
    token: LineToken,
) -> Result<(Vec<OpenNode>, Option<Tree>), PlaceError>
    requires { length nodes.items ≤ 16 }
    ensures { Puts (put (token_view token) (frame_views nodes.items) (option_map view value))
        (doubles (token_view token) (frame_views nodes.items)) result }
{
    let at = place(&token, nodes.as_slice());
    if at == nodes.len() {
        return put_innermost(alloc, nodes, value, token);
    }
    put_under_node(alloc, nodes, at, value, token)
}
