//! The layout of items.

ghost use Rattle.std.specs.Prelude.{◌≡◌, ◌+◌, ◌≤◌, None, List, ◌∷◌, length, true, reverse, IfOk, IfErr, OnOk};
ghost use Rattle.std.specs.String.{string_bytes};
ghost use Rattle.layout_items.specs.declared.item.Item.{Item};
ghost use Rattle.layout_items.specs.Items.{is_start};
ghost use Rattle.layout_items.specs.Layout.{IsLayout, innermost};
ghost use Rattle.layout_items.specs.Passes.{need_at, needs_of, forms_behind};
ghost use Rattle.layout_items.specs.Written.{Refuses};

use crate::form::Form;
use crate::item::Item;
use crate::item_list::ItemList;
use crate::layout_error::LayoutError;
use crate::needs::{Need, needs_of_groups};
use crate::output::Output;
use crate::place::Place;
use crate::style::Style;
use std::alloc::{AllocError, Global};

/// The layout of items, of at most so many bytes.
///
/// # Errors
/// What the items were refused for; `TooLong` where the layout would have more bytes; `OutOfMemory` where memory is refused.
pub fn lay_out(
    items: &ItemList<'_>,
    style: Style,
    limit: usize,
    alloc: Global,
) -> Result<String, LayoutError>
    ensures laid { IfOk result (λ text. (items.now.refused ≡ None) × IsLayout style items.now.items.items (string_bytes text)) }
    ensures within { IfOk result (λ text. length (string_bytes text) ≤ limit) }
    ensures refused { IfErr result (Refuses style limit items.now) }
{
    let listed = items.items()?;
    let mut needs = needs_of_groups(listed, alloc)?;
    let mut output = Output::new(alloc, limit);
    let mut forms = Vec::new(alloc);
    let mut place = Place::beginning(style);
    for item in listed {
        let form = innermost(&forms);
        output.append_item(style, place, form, *item)?;
        let need = pop_need(&mut needs, *item);
        pass_form(&mut forms, style, place, *item, need)?;
        place = place.behind(style, form, *item, need);
    }
    output.append_ending(place)?;
    Ok(output.into_text())
}

/// The form of the innermost choice.
fn innermost(forms: &[Form]) -> Form
    ensures { result ≡ innermost (reverse forms.now) }
{
    forms.last().copied().unwrap_or(Form::Cut)
}

/// Notes the form of a choice that begins, or of what hangs, up to its end.
fn pass_form(
    forms: &mut Vec<Form>,
    style: Style,
    place: Place,
    item: Item<'_>,
    need: Need,
) -> Result<(), AllocError>
    requires { place.line_levels + place.line_aligned ≤ 281474976710656 }
    ensures { (is : List Item) → place.room ≤ style.width + 1 → (is_start item.entry ≡ true → need ≡ need_at item.entry is) → OnOk result (reverse forms.new.items ≡ forms_behind style place (reverse forms.old.items) item.entry is) }
{
    match item {
        Item::ChoiceStart => forms.push(place.form_of_choice(style, need))?,
        Item::HangStart => forms.push(Form::behind_group(place.is_behind_broken))?,
        Item::ChoiceEnd | Item::HangEnd => {
            let _ = forms.pop();
        }
        _ => {}
    }
    Ok(())
}

/// What a group needs that this item begins, where the last need is that of the next group.
fn pop_need(needs: &mut Vec<Need>, item: Item<'_>) -> Need
    ensures { (is : List Item) → needs.old.items ≡ reverse (needs_of (item.entry ∷ is)) → (needs.new.items ≡ reverse (needs_of is)) × (is_start item.entry ≡ true → result ≡ need_at item.entry is) }
{
    let nothing = Need { flat: 0, joined: 0 };
    if item.is_group_start() {
        return needs.pop().unwrap_or(nothing);
    }
    nothing
}
