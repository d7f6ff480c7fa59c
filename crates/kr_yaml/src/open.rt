//! The nodes that are open while tokens are read.
ghost use Rattle.std.specs.Prelude.{◌≡◌, ◌<◌, ◌≤◌, ◌+◌, true, false, [], ◌∷◌, length, take, drop};
ghost use Rattle.std.specs.Prelude.{vec_len, IfOk};
ghost use Rattle.std.specs.Option.{option_map};
ghost use Rattle.kr_yaml.specs.Shown.{view};
ghost use Rattle.kr_yaml.specs.inner.Seen.{token_view};
ghost use Rattle.kr_yaml.specs.inner.Open.{Frame, items, members, token_column, is_dash_in_column, belongs_to_node};
ghost use Rattle.kr_yaml.specs.inner.Open.{close, closed_value, first_state, next, put};
ghost use Rattle.kr_yaml.specs.inner.Open.{is_repeated, doubles, place};
ghost use Rattle.kr_yaml.specs.inner.Frames.{frame_view, frame_views, state_view};
ghost use Rattle.kr_yaml.specs.inner.Puts.{Continues, Puts};

use crate::open_mapping::OpenMapping;
use crate::place_error::PlaceError;
use crate::token::LineToken;
use crate::tree::Tree;
use kr_base::{List, NoMemory};
use std::alloc::Global;

/// A list or a mapping whose last item or member is open.
#[derive(Drop)]
pub enum OpenNode {
    /// A list.
    Items {
        /// Its column.
        column: usize,
        /// The items before the last.
        done: List<Tree>,
    },
    /// A mapping.
    Members(OpenMapping),
}

fn token_column(token: &LineToken) -> usize
    ensures { result ≡ token_column (token_view token.now) }
{
    match token {
        LineToken::Dash { column } => *column,
        LineToken::Pair { column, .. } => *column,
        LineToken::Leaf { column, .. } => *column,
    }
}

fn is_dash_in_column(column: usize, token: &LineToken) -> bool
    ensures { result ≡ is_dash_in_column column (token_view token.now) }
{
    match token {
        LineToken::Dash { column: own } => *own == column,
        LineToken::Pair { .. } => false,
        LineToken::Leaf { .. } => false,
    }
}

/// Whether the token belongs to the last item or member.
fn belongs_to_node(token: &LineToken, node: &OpenNode) -> bool
    ensures { result ≡ belongs_to_node (token_view token.now) (frame_view node.now) }
{
    match node {
        OpenNode::Items { column, .. } => *column < token_column(token),
        OpenNode::Members(mapping) => {
            mapping.column < token_column(token) || is_dash_in_column(mapping.column, token)
        }
    }
}

/// How many of the open nodes the token is inside of.
pub fn place(token: &LineToken, nodes: &[OpenNode]) -> usize
    ensures value { result ≡ place (token_view token.now) (frame_views nodes.now) }
    ensures within { result ≤ length nodes.now }
{
    for (index, node) in nodes.iter().enumerate() {
        if !belongs_to_node(token, node) {
            return index;
        }
    }
    nodes.len()
}

/// Closes a node with the value of its last item or member.
pub fn close(node: OpenNode, value: Tree) -> Result<Tree, NoMemory>
    ensures { IfOk result (λ tree. view tree ≡ close (frame_view node) (view value)) }
{
    match node {
        OpenNode::Items {
            column: _,
            mut done,
        } => match done.push(value) {
            Ok(()) => Ok(Tree::Items(done)),
            Err(_) => Err(NoMemory),
        },
        OpenNode::Members(mapping) => mapping.close(value),
    }
}
