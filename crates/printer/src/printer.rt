//! The text of a tree.

ghost use Rattle.std.specs.Prelude.{◌≡◌, ℕ, suc, ◌<◌, ◌≤◌, ◌+◌, ◌-◌, Bool, true, false, nat_le, nat_eq, cond, List, [], ◌∷◌, ◌++◌, length, map, None, Some, IfOk};
ghost use Rattle.std.specs.String.{string_bytes};
ghost use Rattle.tree.specs.Node.{node_tree};
ghost use Rattle.tree.specs.Tree.{height, kind_of, text_of, flags_of, parts_of, part_count, none};
ghost use Rattle.language.specs.Pieces.{Role, is_none};
ghost use Rattle.language.specs.Grammar.{ways};
ghost use Rattle.spelling_table.specs.declared.position.Position.{Position};
ghost use Rattle.spelling_table.specs.Outlines.{role_of, parts_after};
ghost use Rattle.printer.specs.Bits.{Mark, here, Bit, bits_of, chain_of, fused};
ghost use Rattle.printer.specs.Shapes.{sign_at, sign_of_text, inner};
ghost use Rattle.language.specs.Pieces.{script};
ghost use Rattle.language.specs.Layout.{layout};
ghost use Rattle.printer.specs.Fits.{wrapped_by};
ghost use Rattle.printer.specs.Standings.{Puts, Adds};
ghost use Rattle.printer.specs.Sheets.{seen, flag_at};
ghost use Rattle.language.specs.LayoutFits.{fits, parts_fit, lines_up};
ghost use Rattle.printer.specs.Texts.{IsLaid, IsFixed};
ghost use Rattle.language.specs.RowPositions.{has_row};
ghost use Rattle.tree.specs.HeldRows.{HoldsRows};
ghost use Rattle.tree.specs.declared.node_use.NodeUse.{NodeUse};
ghost use Rattle.row_laws.specs.Agreements.{agrees};
ghost use Rattle.printer.specs.Sites.{site_of, site_at};
ghost use Rattle.printer.specs.Printed.{Stands, Reads, Printed, Direct, Gone, Written, spelled_so, front_marks, chain_marks, deep, shape_marks, marks_in, signed_marks};

use crate::emitter::Emitter;
use crate::expressions::PREFIX;
use crate::fragments::{FramedNode, ListLayout, SignOperator, after, before};
use crate::frame::{frame_of, is_own_text};
use crate::output_buffer::{TextBuffer, TextSink};
use crate::site::Site;
use std::alloc::{AllocError, Global};
use tree::{Kind, Node, Program};
use wrap_flags::Wraps;

/// The text of a script in its layout, with parentheses round the wrapped nodes. Its rows are the nodes at an expression's
/// position, each before those in it, in source order. Where, with these parentheses, some node can't be spelled where it
/// stands, the text is no layout. With the nodes wrapped that its costs wrap, the text of a tree that some text derives is
/// its fixed text.
///
/// # Errors
/// Memory was refused.
pub fn print_text(alloc: Global, program: &Program<'_>, wraps: &Wraps) -> Result<String, AllocError>
    ensures laid { IfOk result (λ t. IsLaid wraps.now.flags.items program.now (string_bytes t)) }
    ensures fixed { IfOk result (λ t. IsFixed wraps.now.flags.items program.now (string_bytes t)) }
{
    let mut text = TextBuffer::new(alloc, program.root().span().end)?;
    print_whole(program, wraps, &mut text);
    text.into_string()
}

/// Puts in the text of a script in its layout.
pub(crate) fn print_whole<O: TextSink>(program: &Program<'_>, wraps: &Wraps, out: &mut O)
    ensures laid { fits (wrapped_by wraps.now.flags.items) program.now script 1 ≡ true → Puts (O.stands out.old []) (O.stands out.new []) (layout (wrapped_by wraps.now.flags.items) program.now script 1 0) }
    ensures adds { Adds (O.stands out.old []) (O.stands out.new []) }
{
    let mut emitter = Emitter::new(wraps);
    // (no tree is higher than it has nodes, and these are counted)
    let _ = program.node_count();
    print_node(program.finished_root(), Site::Plain, 0, &mut emitter, out);
    emitter.finish(out);
}

/// A node at its site.
#[cycle(print)]
#[inline(always)]
fn print_node<O: TextSink>(node: Node, site: Site, depth: usize, emitter: &mut Emitter, out: &mut O)
    requires { depth + height (node_tree node) ≤ usize.MAX }
    ensures laid { (W : ℕ → Bool) → (r : ℕ) → (p : Position) → (st : NodeUse) → HoldsRows st node.entry → agrees st (role_of p) (kind_of (node_tree node.entry)) ≡ true → site_of (role_of p) ≡ site → Reads W r emitter.old.wraps.flags.now → fits W (node_tree node.entry) (role_of p) r ≡ true → Printed W (seen (O.stands out.old emitter.old.room) emitter.old) (seen (O.stands out.new emitter.new.room) emitter.new) (node_tree node.entry) (role_of p) r depth }
    ensures adds { Adds (O.stands out.old emitter.old.room) (O.stands out.new emitter.new.room) }
{
    if node.row().is_some() {
        print_row(node, depth, emitter, out);
        return;
    }
    print_direct(node, site, depth, emitter, out);
}

/// A node that has a row, in parentheses where it is wrapped.
#[cycle(print)]
#[inline(always)]
fn print_row<O: TextSink>(node: Node, depth: usize, emitter: &mut Emitter, out: &mut O)
    requires { depth + height (node_tree node) ≤ usize.MAX }
    ensures laid { (W : ℕ → Bool) → (r : ℕ) → (p : Position) → (st : NodeUse) → HoldsRows st node.entry → agrees st (role_of p) (kind_of (node_tree node.entry)) ≡ true → nat_eq (has_row (role_of p)) 1 ≡ true → Reads W r emitter.old.wraps.flags.now → fits W (node_tree node.entry) (role_of p) r ≡ true → Printed W (seen (O.stands out.old emitter.old.room) emitter.old) (seen (O.stands out.new emitter.new.room) emitter.new) (node_tree node.entry) (role_of p) r depth }
    ensures adds { Adds (O.stands out.old emitter.old.room) (O.stands out.new emitter.new.room) }
{
    if !emitter.next_row() {
        print_direct(node, Site::Plain, depth, emitter, out);
        return;
    }
    emitter.push("(", out);
    print_direct(node, Site::Plain, depth, emitter, out);
    emitter.push(")", out);
}

/// A node without parentheses of its own.
#[cycle(print)]
#[inline(always)]
fn print_direct<O: TextSink>(
    node: Node,
    site: Site,
    depth: usize,
    emitter: &mut Emitter,
    out: &mut O,
)
    requires { depth + height (node_tree node) ≤ usize.MAX }
    ensures laid { (W : ℕ → Bool) → (r : ℕ) → (p : Position) → (st : NodeUse) → HoldsRows st node.entry → agrees st (role_of p) (kind_of (node_tree node.entry)) ≡ true → site_of (role_of p) ≡ site → Reads W r emitter.old.wraps.flags.now → spelled_so W (parts_of (node_tree node.entry)) (ways (role_of p) (node_tree node.entry)) r ≡ true → Direct W (seen (O.stands out.old emitter.old.room) emitter.old) (seen (O.stands out.new emitter.new.room) emitter.new) (parts_of (node_tree node.entry)) (ways (role_of p) (node_tree node.entry)) r depth }
    ensures adds { Adds (O.stands out.old emitter.old.room) (O.stands out.new emitter.new.room) }
{
    if is_own_text(node, site) {
        emitter.push(node.text(), out);
        return;
    }
    print_parts(node, site, depth, emitter, out);
}

/// A node that is no word.
#[cycle(print)]
#[inline(never)]
fn print_parts<O: TextSink>(
    node: Node,
    site: Site,
    depth: usize,
    emitter: &mut Emitter,
    out: &mut O,
)
    requires { depth + height (node_tree node) ≤ usize.MAX }
    ensures laid { (W : ℕ → Bool) → (r : ℕ) → (p : Position) → (st : NodeUse) → HoldsRows st node.entry → agrees st (role_of p) (kind_of (node_tree node.entry)) ≡ true → site_of (role_of p) ≡ site → Reads W r emitter.old.wraps.flags.now → spelled_so W (parts_of (node_tree node.entry)) (ways (role_of p) (node_tree node.entry)) r ≡ true → Direct W (seen (O.stands out.old emitter.old.room) emitter.old) (seen (O.stands out.new emitter.new.room) emitter.new) (parts_of (node_tree node.entry)) (ways (role_of p) (node_tree node.entry)) r depth }
    ensures adds { Adds (O.stands out.old emitter.old.room) (O.stands out.new emitter.new.room) }
{
    match sign_of(node) {
        Some(sign) => print_sign_operator(node, sign, depth, emitter, out),
        None => {
            let frame = frame_of(node, site);
            print_framed(FramedNode { node, frame, depth }, emitter, out)
        }
    }
}

/// The sign of a prefix that may not touch itself.
fn sign_of(node: Node) -> Option<SignOperator>
    ensures { result ≡ sign_at (kind_of (node_tree node.entry)) (text_of (node_tree node.entry)) (flags_of (node_tree node.entry)) }
{
    match node.kind() {
        Kind::UnaryExpression => sign_in(node.text()),
        Kind::UpdateExpression if node.flags().prefix => sign_in(node.text()),
        _ => None,
    }
}

/// The sign of which a prefix operator consists: `+` or `-`, once or twice; none for others.
fn sign_in(text: &str) -> Option<SignOperator>
    ensures { result ≡ sign_of_text text.now }
{
    match text {
        "+" | "++" => Some(SignOperator::Plus),
        "-" | "--" => Some(SignOperator::Minus),
        _ => None,
    }
}

/// A prefix with its operand.
#[cycle(print)]
#[inline(never)]
fn print_sign_operator<O: TextSink>(
    node: Node,
    sign: SignOperator,
    depth: usize,
    emitter: &mut Emitter,
    out: &mut O,
)
    requires { depth + height (node_tree node) ≤ usize.MAX }
    ensures laid { (W : ℕ → Bool) → (st : NodeUse) → HoldsRows st node.entry → (xs : List Role) → (r : ℕ) → Reads W r emitter.old.wraps.flags.now → parts_fit W (parts_of (node_tree node.entry)) xs r ≡ true → Stands st (node_tree node.entry) (signed_marks (text_of (node_tree node.entry)) sign) (parts_of (node_tree node.entry)) xs → sign_of_text (text_of (node_tree node.entry)) ≡ Some sign → is_none (parts_after 1 (parts_of (node_tree node.entry))) ≡ true → Written W (seen (O.stands out.old emitter.old.room) emitter.old) (seen (O.stands out.new emitter.new.room) emitter.new) (signed_marks (text_of (node_tree node.entry)) sign) (parts_of (node_tree node.entry)) xs false depth r }
    ensures adds { Adds (O.stands out.old emitter.old.room) (O.stands out.new emitter.new.room) }
{
    let mut previous_is_bare = false;
    emitter.push(node.text(), out);
    emitter.keep_apart(sign);
    let framed = FramedNode {
        node,
        frame: &PREFIX,
        depth,
    };
    print_part(framed, 0, &mut previous_is_bare, emitter, out);
    emitter.join();
}

/// A node's parts, with what stands round them.
#[cycle(print)]
fn print_framed<O: TextSink>(framed: FramedNode, emitter: &mut Emitter, out: &mut O)
    requires { framed.depth + height (node_tree framed.node) ≤ usize.MAX }
    ensures laid { (W : ℕ → Bool) → (st : NodeUse) → HoldsRows st framed.entry.node → (fs : List (List Bit)) → (os cs : List Bit) → map (λ p. bits_of p.now) framed.entry.frame.now.front.now ≡ map fused fs → bits_of framed.entry.frame.now.opener.now ≡ fused os → bits_of framed.entry.frame.now.closer.now ≡ fused cs → (xs : List Role) → (r : ℕ) → Reads W r emitter.old.wraps.flags.now → parts_fit W (parts_of (node_tree framed.entry.node)) xs r ≡ true → Stands st (node_tree framed.entry.node) (shape_marks (text_of (node_tree framed.entry.node)) (record { front = fs; opener = os; chain = chain_of framed.entry.frame.now.series; closer = cs; sites = framed.entry.frame.now.sites }) (parts_of (node_tree framed.entry.node))) (parts_of (node_tree framed.entry.node)) xs → Written W (seen (O.stands out.old emitter.old.room) emitter.old) (seen (O.stands out.new emitter.new.room) emitter.new) (shape_marks (text_of (node_tree framed.entry.node)) (record { front = fs; opener = os; chain = chain_of framed.entry.frame.now.series; closer = cs; sites = framed.entry.frame.now.sites }) (parts_of (node_tree framed.entry.node))) (parts_of (node_tree framed.entry.node)) xs false framed.entry.depth r }
    ensures adds { Adds (O.stands out.old emitter.old.room) (O.stands out.new emitter.new.room) }
{
    let mut previous_is_bare = false;
    print_front(framed, &mut previous_is_bare, emitter, out);
    emitter.push_all(framed.frame.opener, framed, previous_is_bare, out);
    let inside = inner_depth(framed.frame.series, framed.depth);
    print_list(
        FramedNode {
            depth: inside,
            ..framed
        },
        &mut previous_is_bare,
        emitter,
        out,
    );
    emitter.push_all(framed.frame.closer, framed, previous_is_bare, out);
}

/// The first parts, with what stands before each.
#[cycle(print)]
fn print_front<O: TextSink>(
    framed: FramedNode,
    previous_is_bare: &mut bool,
    emitter: &mut Emitter,
    out: &mut O,
)
    requires { framed.depth + height (node_tree framed.node) ≤ usize.MAX }
    ensures laid { (W : ℕ → Bool) → (st : NodeUse) → HoldsRows st framed.entry.node → (fs : List (List Bit)) → map (λ p. bits_of p.now) framed.entry.frame.now.front.now ≡ map fused fs → (ms : List Mark) → (xs : List Role) → (r : ℕ) → Reads W r emitter.old.wraps.flags.now → parts_fit W (parts_of (node_tree framed.entry.node)) xs r ≡ true → Stands st (node_tree framed.entry.node) (front_marks (text_of (node_tree framed.entry.node)) framed.entry.frame.now.sites 0 fs (parts_of (node_tree framed.entry.node)) ms) (parts_of (node_tree framed.entry.node)) xs → Gone W st (node_tree framed.entry.node) (seen (O.stands out.old emitter.old.room) emitter.old) (seen (O.stands out.new emitter.new.room) emitter.new) (front_marks (text_of (node_tree framed.entry.node)) framed.entry.frame.now.sites 0 fs (parts_of (node_tree framed.entry.node)) ms) ms (parts_of (node_tree framed.entry.node)) (parts_after (length framed.entry.frame.now.front.now) (parts_of (node_tree framed.entry.node))) xs previous_is_bare.old previous_is_bare.new framed.entry.depth r }
    ensures adds { Adds (O.stands out.old emitter.old.room) (O.stands out.new emitter.new.room) }
{
    let frame = framed.frame;
    for index in 0..frame.front.len() {
        emitter.push_all(frame.front[index], framed, *previous_is_bare, out);
        print_part(framed, index, previous_is_bare, emitter, out);
    }
}

/// The other parts.
#[cycle(print)]
fn print_list<O: TextSink>(
    framed: FramedNode,
    previous_is_bare: &mut bool,
    emitter: &mut Emitter,
    out: &mut O,
)
    requires { framed.depth + height (node_tree framed.node) ≤ usize.MAX + 1 }
    ensures laid { (W : ℕ → Bool) → (st : NodeUse) → HoldsRows st framed.entry.node → (ms : List Mark) → (xs : List Role) → (r : ℕ) → Reads W r emitter.old.wraps.flags.now → parts_fit W (parts_after (length framed.entry.frame.now.front.now) (parts_of (node_tree framed.entry.node))) xs r ≡ true → Stands st (node_tree framed.entry.node) (chain_marks (text_of (node_tree framed.entry.node)) framed.entry.frame.now.sites (chain_of framed.entry.frame.now.series) (length framed.entry.frame.now.front.now) (parts_after (length framed.entry.frame.now.front.now) (parts_of (node_tree framed.entry.node))) ++ ms) (parts_after (length framed.entry.frame.now.front.now) (parts_of (node_tree framed.entry.node))) xs → Gone W st (node_tree framed.entry.node) (seen (O.stands out.old emitter.old.room) emitter.old) (seen (O.stands out.new emitter.new.room) emitter.new) (chain_marks (text_of (node_tree framed.entry.node)) framed.entry.frame.now.sites (chain_of framed.entry.frame.now.series) (length framed.entry.frame.now.front.now) (parts_after (length framed.entry.frame.now.front.now) (parts_of (node_tree framed.entry.node))) ++ ms) ms (parts_after (length framed.entry.frame.now.front.now) (parts_of (node_tree framed.entry.node))) none xs previous_is_bare.old previous_is_bare.new framed.entry.depth r }
    ensures adds { Adds (O.stands out.old emitter.old.room) (O.stands out.new emitter.new.room) }
{
    let count = framed.node.part_count();
    for index in framed.frame.front.len()..count {
        print_item(framed, index, previous_is_bare, emitter, out);
    }
}

/// One of them, with what stands before it and behind it.
#[cycle(print)]
fn print_item<O: TextSink>(
    framed: FramedNode,
    index: usize,
    previous_is_bare: &mut bool,
    emitter: &mut Emitter,
    out: &mut O,
)
    requires low { framed.depth + height (node_tree framed.node) ≤ usize.MAX + 1 }
    requires index { index < part_count (parts_of (node_tree framed.node)) }
    ensures laid { (W : ℕ → Bool) → (st : NodeUse) → HoldsRows st framed.entry.node → (ms : List Mark) → (xs : List Role) → (r : ℕ) → Reads W r emitter.old.wraps.flags.now → parts_fit W (parts_after index (parts_of (node_tree framed.entry.node))) xs r ≡ true → Stands st (node_tree framed.entry.node) (chain_marks (text_of (node_tree framed.entry.node)) framed.entry.frame.now.sites (chain_of framed.entry.frame.now.series) index (parts_after index (parts_of (node_tree framed.entry.node))) ++ ms) (parts_after index (parts_of (node_tree framed.entry.node))) xs → Gone W st (node_tree framed.entry.node) (seen (O.stands out.old emitter.old.room) emitter.old) (seen (O.stands out.new emitter.new.room) emitter.new) (chain_marks (text_of (node_tree framed.entry.node)) framed.entry.frame.now.sites (chain_of framed.entry.frame.now.series) index (parts_after index (parts_of (node_tree framed.entry.node))) ++ ms) (chain_marks (text_of (node_tree framed.entry.node)) framed.entry.frame.now.sites (chain_of framed.entry.frame.now.series) (suc index) (parts_after (suc index) (parts_of (node_tree framed.entry.node))) ++ ms) (parts_after index (parts_of (node_tree framed.entry.node))) (parts_after (suc index) (parts_of (node_tree framed.entry.node))) xs previous_is_bare.old previous_is_bare.new framed.entry.depth r }
    ensures adds { Adds (O.stands out.old emitter.old.room) (O.stands out.new emitter.new.room) }
{
    let behind = framed.node.part_count() - index - 1;
    emitter.push_all(
        before(framed.frame.series, behind == 0),
        framed,
        *previous_is_bare,
        out,
    );
    print_part(framed, index, previous_is_bare, emitter, out);
    let is_gap = framed.node.part(index).is_none();
    emitter.push_all(
        after(framed.frame.series, is_gap, behind),
        framed,
        *previous_is_bare,
        out,
    );
}

/// How deep the parts of a list stand.
fn inner_depth(series: ListLayout, depth: usize) -> usize
    requires { depth < usize.MAX }
    ensures inner { result ≡ inner (chain_of series) depth }
    ensures near { result ≤ depth + 1 }
{
    match series {
        ListLayout::Lines => depth + 1,
        _ => depth,
    }
}

/// The part at a place, if none is missing there.
#[cycle(print)]
#[inline(always)]
#[tactic(auto, using(tree::proofs::PartWalk::part_steps))]
fn print_part<O: TextSink>(
    framed: FramedNode,
    index: usize,
    previous_is_bare: &mut bool,
    emitter: &mut Emitter,
    out: &mut O,
)
    requires { framed.depth + height (node_tree framed.node) ≤ usize.MAX + 1 }
    ensures laid { (W : ℕ → Bool) → (st : NodeUse) → HoldsRows st framed.entry.node → (ms : List Mark) → (xs : List Role) → (r : ℕ) → Reads W r emitter.old.wraps.flags.now → parts_fit W (parts_after index (parts_of (node_tree framed.entry.node))) xs r ≡ true → Stands st (node_tree framed.entry.node) (here (site_at framed.entry.frame.now.sites index (parts_after index (parts_of (node_tree framed.entry.node)))) ∷ ms) (parts_after index (parts_of (node_tree framed.entry.node))) xs → Gone W st (node_tree framed.entry.node) (seen (O.stands out.old emitter.old.room) emitter.old) (seen (O.stands out.new emitter.new.room) emitter.new) (here (site_at framed.entry.frame.now.sites index (parts_after index (parts_of (node_tree framed.entry.node)))) ∷ ms) ms (parts_after index (parts_of (node_tree framed.entry.node))) (parts_after (suc index) (parts_of (node_tree framed.entry.node))) xs previous_is_bare.old previous_is_bare.new framed.entry.depth r }
    ensures adds { Adds (O.stands out.old emitter.old.room) (O.stands out.new emitter.new.room) }
{
    let node = framed.node;
    let Some(part) = node.finished_part(index) else {
        *previous_is_bare = false;
        return;
    };
    let sites = framed.frame.sites;
    let site = sites.site_of_part(index, part.kind(), is_last(node, index));
    *previous_is_bare = !emitter.is_wrapped();
    print_node(part, site, framed.depth, emitter, out);
}

/// Whether no part is behind this place.
fn is_last(node: Node, index: usize) -> bool
    ensures { result ≡ nat_le (part_count (parts_of (node_tree node.entry)) - 1) index }
{
    node.part_count().saturating_sub(1) <= index
}
