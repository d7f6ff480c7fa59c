//! Writing a tree.
ghost use Rattle.std.specs.Prelude.{◌≡◌, ◌++◌, codes, IfOk};
ghost use Rattle.std.specs.String.{string_bytes};
ghost use Rattle.kr_yaml.specs.Data.{items_of, list, mapping, members_of};
ghost use Rattle.kr_yaml.specs.Shown.{member_views, view, view_member, views};
ghost use Rattle.test_yaml.specs.TreeText.{tree_text, word_text};

use kr_yaml::{Member, Tree};
use std::alloc::{AllocError, Global};

/// Adds the tree's text.
#[cycle(tree)]
pub fn write_tree(alloc: Global, out: &mut String, tree: &Tree) -> Result<(), AllocError>
    ensures { IfOk result (λ done. string_bytes out.new
        ≡ string_bytes out.old ++ tree_text (view tree.now)) }
{
    match tree {
        Tree::Null => out.push_str("null"),
        Tree::Word(word) => write_word(alloc, out, word.as_str()),
        Tree::Items(items) => write_items(alloc, out, items.as_slice()),
        Tree::Members(members) => write_members(alloc, out, members.as_slice()),
    }
}

fn write_word(alloc: Global, out: &mut String, word: &str) -> Result<(), AllocError>
    ensures { IfOk result (λ done. string_bytes out.new
        ≡ string_bytes out.old ++ word_text word.now) }
{
    let digits = hex::encode(alloc, word.as_bytes())?;
    out.push_str("\"")?;
    out.push_str(digits.as_str())?;
    out.push_str("\"")
}

#[cycle(tree)]
fn write_items(alloc: Global, out: &mut String, items: &[Tree]) -> Result<(), AllocError>
    ensures { IfOk result (λ done. string_bytes out.new
        ≡ string_bytes out.old ++ tree_text (list (items_of (views items.now)))) }
{
    let [first, rest @ ..] = items else {
        return out.push_str("[]");
    };
    out.push_str("[")?;
    write_tree(alloc, out, first)?;
    'rest: for item in rest {
        out.push_str(",")?;
        write_tree(alloc, out, item)?;
    }
    out.push_str("]")
}

#[cycle(tree)]
fn write_members(alloc: Global, out: &mut String, members: &[Member]) -> Result<(), AllocError>
    ensures { IfOk result (λ done. string_bytes out.new
        ≡ string_bytes out.old ++ tree_text (mapping (members_of (member_views members.now)))) }
{
    let [first, rest @ ..] = members else {
        return out.push_str("{}");
    };
    out.push_str("{")?;
    write_member(alloc, out, first)?;
    'rest: for member in rest {
        out.push_str(",")?;
        write_member(alloc, out, member)?;
    }
    out.push_str("}")
}

#[cycle(tree)]
fn write_member(alloc: Global, out: &mut String, member: &Member) -> Result<(), AllocError>
    ensures { IfOk result (λ done. string_bytes out.new ≡ string_bytes out.old
        ++ (word_text (view_member member.now).0
        ++ (codes ":" ++ tree_text (view_member member.now).1))) }
{
    write_word(alloc, out, member.key.as_str())?;
    out.push_str(":")?;
    write_tree(alloc, out, &member.value)
}
