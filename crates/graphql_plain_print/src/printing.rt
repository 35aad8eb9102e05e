//! Plain selection sets, printed while the document is walked.

ghost use Rattle.std.specs.Prelude.{◌≡◌, ◌≤◌, ◌<◌, ◌+◌, ◌++◌, ◌∷◌, [], false, IfOk, OnOk};
ghost use Rattle.std.specs.String.{string_bytes};
ghost use Rattle.graphql_written_out.specs.Written.{Settled};
ghost use Rattle.graphql_plain_tree.specs.Plain.{size};
ghost use Rattle.graphql_plain_tree.specs.PlainOperations.{variables_used};
ghost use Rattle.graphql_plain_text.specs.TreeTokens.{in_braces};
ghost use Rattle.graphql_plain_print.specs.declared.printing.Frame.TheVariants.{First, Kept};
ghost use Rattle.graphql_plain_print.specs.declared.written.Written.TheVariants as form;
ghost use Rattle.graphql_plain_print.specs.Adding.{AddsTokens};
ghost use Rattle.graphql_plain_print.specs.Alone.{alone_tokens, alone_uses, below_size};
ghost use Rattle.graphql_plain_print.specs.Alone.{below_turns, set_tokens};
ghost use Rattle.graphql_plain_print.specs.Faults.{IfTooLarge};
ghost use Rattle.graphql_plain_print.specs.Frames.{Prints, frame_size, frame_tokens, frame_tree};
ghost use Rattle.graphql_plain_print.specs.Frames.{frame_turns, frame_uses, stack_size};
ghost use Rattle.graphql_plain_print.specs.Frames.{stack_turns, stack_uses, turns};
ghost use Rattle.graphql_plain_print.specs.NameSets.{AreSame};
ghost use Rattle.graphql_plain_print.specs.Plans.{fragments_by, plain_by, tokens_by, written_by};

use crate::plan::Plan;
use crate::print_error::PrintError;
use crate::variables::add_used;
use crate::words::{push_condition, push_head, push_stand_in, push_word};
use crate::written::{Written, all_out, first_written, is_out};
use graphql_text::{Items, Spanning, TextRef};
use graphql_tree::{Directive, Field, Selection, arguments_in};
use graphql_values::ScalarValue;
use std::alloc::{AllocError, Global};
use std::collections::HashSet;

/// What is left of a set that is open.
#[derive(Drop)]
pub enum Frame<'d, 'a, S> {
    /// Those of these that are not left out.
    Kept(&'d [Selection<'a, S>]),

    /// The first of these, which stands for all.
    First(&'d [Selection<'a, S>]),

    /// Nothing.
    End,
}

/// One frame more.
fn push_frame<'d, 'a, S>(
    sets: &mut Items<Frame<'d, 'a, S>>,
    frame: Frame<'d, 'a, S>,
) -> Result<(), AllocError>
    ensures { OnOk result (sets.new ≡ sets.old ++ frame.entry ∷ []) }
{
    sets.push(frame)?;
    Ok(())
}

/// What is left of a set as it opens.
fn opened<'d, 'a, S: ScalarValue>(
    plan: &Plan<'d, '_, 'a, S>,
    set: &'d [Selection<'a, S>],
) -> Frame<'d, 'a, S>
    requires { Settled (fragments_by plan.now) }
    ensures tree { frame_tree S.answer S.of_bool plan.now result
        ≡ plain_by S.answer S.of_bool plan.now set.now }
    ensures turns { frame_turns plan.now result ≡ turns (written_by plan.now set.now) }
{
    if all_out(plan, set) {
        Frame::First(set)
    } else {
        Frame::Kept(set)
    }
}

/// Opens a set.
fn open<'d, 'a, S: ScalarValue>(
    plan: &Plan<'d, '_, 'a, S>,
    set: &'d [Selection<'a, S>],
    sets: &mut Items<Frame<'d, 'a, S>>,
    text: &mut String,
) -> Result<(), AllocError>
    requires { Settled (fragments_by plan.now) }
    ensures text { OnOk result (Prints S.answer S.of_bool plan.now
        (in_braces (tokens_by plan.now (plain_by S.answer S.of_bool plan.now set.now)))
        (string_bytes text.old) sets.old (string_bytes text.new) sets.new) }
    ensures uses { OnOk result (stack_uses S.answer S.of_bool plan.now sets.new
        ≡ variables_used (plain_by S.answer S.of_bool plan.now set.now)
        ++ stack_uses S.answer S.of_bool plan.now sets.old) }
    ensures sized { OnOk result (stack_size S.answer S.of_bool plan.now sets.new
        ≡ size (plain_by S.answer S.of_bool plan.now set.now)
        + stack_size S.answer S.of_bool plan.now sets.old) }
    ensures turns { OnOk result (stack_turns plan.now sets.new ≡ turns (written_by plan.now set.now)
        + stack_turns plan.now sets.old) }
{
    push_word(text, "{")?;
    push_frame(sets, opened(plan, set))?;
    Ok(())
}

/// Opens a set, unless nothing is selected.
fn open_some<'d, 'a, S: ScalarValue>(
    plan: &Plan<'d, '_, 'a, S>,
    set: &'d [Selection<'a, S>],
    sets: &mut Items<Frame<'d, 'a, S>>,
    text: &mut String,
) -> Result<(), AllocError>
    requires { Settled (fragments_by plan.now) }
    ensures text { OnOk result (Prints S.answer S.of_bool plan.now
        (set_tokens S.answer S.of_bool plan.now set.now) (string_bytes text.old) sets.old
        (string_bytes text.new) sets.new) }
    ensures uses { OnOk result (stack_uses S.answer S.of_bool plan.now sets.new
        ≡ variables_used (plain_by S.answer S.of_bool plan.now set.now)
        ++ stack_uses S.answer S.of_bool plan.now sets.old) }
    ensures sized { OnOk result (stack_size S.answer S.of_bool plan.now sets.new
        ≡ size (plain_by S.answer S.of_bool plan.now set.now)
        + stack_size S.answer S.of_bool plan.now sets.old) }
    ensures turns { OnOk result (stack_turns plan.now sets.new ≤ turns (written_by plan.now set.now)
        + stack_turns plan.now sets.old) }
{
    match first_written(plan, set) {
        None => Ok(()),
        Some(_) => open(plan, set, sets, text),
    }
}

/// Prints a field, and opens its set, if it has one.
fn print_field<'d, 'a, S: ScalarValue>(
    alloc: Global,
    plan: &Plan<'d, '_, 'a, S>,
    field: &'d Spanning<Field<'a, S>>,
    stands_in: bool,
    sets: &mut Items<Frame<'d, 'a, S>>,
    text: &mut String,
    used: &mut HashSet<TextRef<'d>>,
) -> Result<(), AllocError>
    requires { Settled (fragments_by plan.now) }
    ensures text { OnOk result (Prints S.answer S.of_bool plan.now
        (alone_tokens S.answer S.of_bool plan.now stands_in (form.Field field.entry))
        (string_bytes text.old) sets.old (string_bytes text.new) sets.new) }
    ensures uses { OnOk result (AreSame (used.new.keys
        ++ stack_uses S.answer S.of_bool plan.now sets.new)
        (used.old.keys ++ (alone_uses S.answer S.of_bool plan.now (form.Field field.entry)
        ++ stack_uses S.answer S.of_bool plan.now sets.old))) }
    ensures sized { OnOk result (stack_size S.answer S.of_bool plan.now sets.new
        ≡ below_size S.answer S.of_bool plan.now (form.Field field.entry)
        + stack_size S.answer S.of_bool plan.now sets.old) }
    ensures turns { OnOk result (stack_turns plan.now sets.new
        ≤ below_turns plan.now (form.Field field.entry) + stack_turns plan.now sets.old) }
{
    push_head(text, plan.tokens, &field.item)?;
    push_stand_in(text, stands_in)?;
    add_used(alloc, used, arguments_in(&field.item.arguments))?;
    match &field.item.selection_set {
        Some(set) => open_some(plan, set.as_slice(), sets, text),
        None => Ok(()),
    }
}

/// Prints an inline fragment, and opens its set.
fn print_inline<'d, 'a, S: ScalarValue>(
    plan: &Plan<'d, '_, 'a, S>,
    on: Option<&'d str>,
    directives: &'d Option<Items<Spanning<Directive<'a, S>>>>,
    set: &'d [Selection<'a, S>],
    stands_in: bool,
    sets: &mut Items<Frame<'d, 'a, S>>,
    text: &mut String,
) -> Result<(), AllocError>
    requires { Settled (fragments_by plan.now) }
    ensures text { OnOk result (Prints S.answer S.of_bool plan.now
        (alone_tokens S.answer S.of_bool plan.now stands_in
        (form.Inline on.entry directives.entry set.entry)) (string_bytes text.old) sets.old
        (string_bytes text.new) sets.new) }
    ensures uses { OnOk result (stack_uses S.answer S.of_bool plan.now sets.new
        ≡ alone_uses S.answer S.of_bool plan.now (form.Inline on.entry directives.entry set.entry)
        ++ stack_uses S.answer S.of_bool plan.now sets.old) }
    ensures sized { OnOk result (stack_size S.answer S.of_bool plan.now sets.new
        ≡ below_size S.answer S.of_bool plan.now (form.Inline on.entry directives.entry set.entry)
        + stack_size S.answer S.of_bool plan.now sets.old) }
    ensures turns { OnOk result (stack_turns plan.now sets.new
        ≤ below_turns plan.now (form.Inline on.entry directives.entry set.entry)
        + stack_turns plan.now sets.old) }
{
    push_condition(text, on)?;
    push_stand_in(text, stands_in)?;
    open(plan, set, sets, text)
}

/// Prints a selection, and opens its set, if it has one.
fn print_selection<'d, 'a, S: ScalarValue>(
    alloc: Global,
    plan: &Plan<'d, '_, 'a, S>,
    selection: Written<'d, 'a, S>,
    stands_in: bool,
    sets: &mut Items<Frame<'d, 'a, S>>,
    text: &mut String,
    used: &mut HashSet<TextRef<'d>>,
) -> Result<(), AllocError>
    requires { Settled (fragments_by plan.now) }
    ensures text { OnOk result (Prints S.answer S.of_bool plan.now
        (alone_tokens S.answer S.of_bool plan.now stands_in selection.entry)
        (string_bytes text.old) sets.old (string_bytes text.new) sets.new) }
    ensures uses { OnOk result (AreSame (used.new.keys
        ++ stack_uses S.answer S.of_bool plan.now sets.new)
        (used.old.keys ++ (alone_uses S.answer S.of_bool plan.now selection.entry
        ++ stack_uses S.answer S.of_bool plan.now sets.old))) }
    ensures sized { OnOk result (stack_size S.answer S.of_bool plan.now sets.new
        ≡ below_size S.answer S.of_bool plan.now selection.entry
        + stack_size S.answer S.of_bool plan.now sets.old) }
    ensures turns { OnOk result (stack_turns plan.now sets.new
        ≤ below_turns plan.now selection.entry + stack_turns plan.now sets.old) }
{
    match selection {
        Written::Field(field) => print_field(alloc, plan, field, stands_in, sets, text, used),
        Written::Inline(on, directives, set) => {
            print_inline(plan, on, directives, set, stands_in, sets, text)
        }
    }
}

/// Goes on with those of a set that are not left out. Answers how many selections are printed.
fn advance_kept<'d, 'a, S: ScalarValue>(
    alloc: Global,
    plan: &Plan<'d, '_, 'a, S>,
    rest: &'d [Selection<'a, S>],
    count: usize,
    sets: &mut Items<Frame<'d, 'a, S>>,
    text: &mut String,
    used: &mut HashSet<TextRef<'d>>,
) -> Result<usize, PrintError>
    requires settled { Settled (fragments_by plan.now) }
    requires room { count ≤ plan.now.limit }
    ensures text { OnOk result (Prints S.answer S.of_bool plan.now
        (frame_tokens S.answer S.of_bool plan.now (Kept rest.entry))
        (string_bytes text.old) sets.old (string_bytes text.new) sets.new) }
    ensures uses { OnOk result (AreSame (used.new.keys
        ++ stack_uses S.answer S.of_bool plan.now sets.new)
        (used.old.keys ++ (frame_uses S.answer S.of_bool plan.now (Kept rest.entry)
        ++ stack_uses S.answer S.of_bool plan.now sets.old))) }
    ensures sized { IfOk result (λ n. (n + stack_size S.answer S.of_bool plan.now sets.new ≡ count
        + (frame_size S.answer S.of_bool plan.now (Kept rest.entry)
        + stack_size S.answer S.of_bool plan.now sets.old)) × (n ≤ plan.now.limit)) }
    ensures turns { OnOk result (stack_turns plan.now sets.new
        < frame_turns plan.now (Kept rest.entry) + stack_turns plan.now sets.old) }
    ensures large { IfTooLarge result (plan.now.limit < count
        + (frame_size S.answer S.of_bool plan.now (Kept rest.entry)
        + stack_size S.answer S.of_bool plan.now sets.old)) }
{
    match first_written(plan, rest) {
        None => {
            push_word(text, "}")?;
            Ok(count)
        }
        Some((selection, behind)) => {
            push_frame(sets, Frame::Kept(behind))?;
            if is_out(plan, &selection) {
                return Ok(count);
            }
            if count == plan.limit {
                return Err(PrintError::TooLarge);
            }
            print_selection(alloc, plan, selection, false, sets, text, used)?;
            Ok(count + 1)
        }
    }
}

/// Goes on with the first of a set, which stands for all. Answers how many selections are printed.
fn advance_first<'d, 'a, S: ScalarValue>(
    alloc: Global,
    plan: &Plan<'d, '_, 'a, S>,
    rest: &'d [Selection<'a, S>],
    count: usize,
    sets: &mut Items<Frame<'d, 'a, S>>,
    text: &mut String,
    used: &mut HashSet<TextRef<'d>>,
) -> Result<usize, PrintError>
    requires settled { Settled (fragments_by plan.now) }
    requires room { count ≤ plan.now.limit }
    ensures text { OnOk result (Prints S.answer S.of_bool plan.now
        (frame_tokens S.answer S.of_bool plan.now (First rest.entry))
        (string_bytes text.old) sets.old (string_bytes text.new) sets.new) }
    ensures uses { OnOk result (AreSame (used.new.keys
        ++ stack_uses S.answer S.of_bool plan.now sets.new)
        (used.old.keys ++ (frame_uses S.answer S.of_bool plan.now (First rest.entry)
        ++ stack_uses S.answer S.of_bool plan.now sets.old))) }
    ensures sized { IfOk result (λ n. (n + stack_size S.answer S.of_bool plan.now sets.new ≡ count
        + (frame_size S.answer S.of_bool plan.now (First rest.entry)
        + stack_size S.answer S.of_bool plan.now sets.old)) × (n ≤ plan.now.limit)) }
    ensures turns { OnOk result (stack_turns plan.now sets.new
        < frame_turns plan.now (First rest.entry) + stack_turns plan.now sets.old) }
    ensures large { IfTooLarge result (plan.now.limit < count
        + (frame_size S.answer S.of_bool plan.now (First rest.entry)
        + stack_size S.answer S.of_bool plan.now sets.old)) }
{
    match first_written(plan, rest) {
        None => {
            push_word(text, "}")?;
            Ok(count)
        }
        Some((selection, _)) => {
            push_frame(sets, Frame::End)?;
            if count == plan.limit {
                return Err(PrintError::TooLarge);
            }
            print_selection(alloc, plan, selection, true, sets, text, used)?;
            Ok(count + 1)
        }
    }
}

/// Goes on with what is left of a set. Answers how many selections are printed.
fn advance<'d, 'a, S: ScalarValue>(
    alloc: Global,
    plan: &Plan<'d, '_, 'a, S>,
    frame: Frame<'d, 'a, S>,
    count: usize,
    sets: &mut Items<Frame<'d, 'a, S>>,
    text: &mut String,
    used: &mut HashSet<TextRef<'d>>,
) -> Result<usize, PrintError>
    requires settled { Settled (fragments_by plan.now) }
    requires room { count ≤ plan.now.limit }
    ensures text { OnOk result (Prints S.answer S.of_bool plan.now
        (frame_tokens S.answer S.of_bool plan.now frame.entry) (string_bytes text.old) sets.old
        (string_bytes text.new) sets.new) }
    ensures uses { OnOk result (AreSame (used.new.keys
        ++ stack_uses S.answer S.of_bool plan.now sets.new)
        (used.old.keys ++ (frame_uses S.answer S.of_bool plan.now frame.entry
        ++ stack_uses S.answer S.of_bool plan.now sets.old))) }
    ensures sized { IfOk result (λ n. (n + stack_size S.answer S.of_bool plan.now sets.new ≡ count
        + (frame_size S.answer S.of_bool plan.now frame.entry
        + stack_size S.answer S.of_bool plan.now sets.old)) × (n ≤ plan.now.limit)) }
    ensures turns { OnOk result (stack_turns plan.now sets.new < frame_turns plan.now frame.entry
        + stack_turns plan.now sets.old) }
    ensures large { IfTooLarge result (plan.now.limit < count
        + (frame_size S.answer S.of_bool plan.now frame.entry
        + stack_size S.answer S.of_bool plan.now sets.old)) }
{
    match frame {
        Frame::Kept(rest) => advance_kept(alloc, plan, rest, count, sets, text, used),
        Frame::First(rest) => advance_first(alloc, plan, rest, count, sets, text, used),
        Frame::End => {
            push_word(text, "}")?;
            Ok(count)
        }
    }
}

/// Prints the plain set of a set between its braces, and adds the names of the variables that it
/// uses. What is left of the sets around stands on the heap, so it takes no more stack however deep
/// they are. It ends past the limit.
pub(crate) fn print_set<'d, 'a, S: ScalarValue>(
    alloc: Global,
    plan: &Plan<'d, '_, 'a, S>,
    set: &'d [Selection<'a, S>],
    text: &mut String,
    used: &mut HashSet<TextRef<'d>>,
) -> Result<(), PrintError>
    requires { Settled (fragments_by plan.now) }
    ensures text { OnOk result (AddsTokens (string_bytes text.old) (string_bytes text.new)
        (in_braces (tokens_by plan.now (plain_by S.answer S.of_bool plan.now set.now)))) }
    ensures uses { OnOk result (AreSame used.new.keys
        (used.old.keys ++ variables_used (plain_by S.answer S.of_bool plan.now set.now))) }
    ensures fits { OnOk result (size (plain_by S.answer S.of_bool plan.now set.now)
        ≤ plan.now.limit) }
    ensures large { IfTooLarge result (plan.now.limit
        < size (plain_by S.answer S.of_bool plan.now set.now)) }
{
    let mut sets = Items::new(alloc);
    let mut count = 0;
    open(plan, set, &mut sets, text)?;
    'sets: while let Some(frame) = sets.pop() {
        count = advance(alloc, plan, frame, count, &mut sets, text, used)?;
    }
    Ok(())
}
