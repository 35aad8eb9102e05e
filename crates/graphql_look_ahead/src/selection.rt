//! A field that is looked at.

ghost use Rattle.std.specs.Prelude.{◌≡◌, ◌↔◌, [], IfOk, IfSome, IsFalse, List, None, map};
ghost use Rattle.std.specs.List.{All, filter};
ghost use Rattle.std.specs.Option.{option_copied, option_map};
ghost use Rattle.graphql_collected.specs.Requests.{drops_in, fragments_in};
ghost use Rattle.graphql_tree.specs.Documents.{arguments_in as written_in};
ghost use Rattle.graphql_written_out.specs.Written.{Settled, listed};
ghost use Rattle.graphql_look_ahead.specs.Applies.{applies_to};
ghost use Rattle.graphql_look_ahead.specs.Children.{Ahead, Children, HasChildren};
ghost use Rattle.graphql_look_ahead.specs.FirstChild.{IsFirst};
ghost use Rattle.graphql_look_ahead.specs.Selections.{field_or_key, first_of_key, none_or};
ghost use Rattle.graphql_look_ahead.specs.Selections.{selections_of};
ghost use Rattle.graphql_look_ahead.specs.Told.{IsOfRequest, looked_at, document_field};
ghost use Rattle.graphql_look_ahead.specs.Told.{with_request};
ghost use Rattle.graphql_look_ahead.specs.Told as spec;
ghost use Rattle.graphql_look_ahead.specs.Values.{argument_named, argument_seen, argument_told};
ghost use Rattle.graphql_look_ahead.specs.Values.{arguments_left};

use crate::applies::Applies;
use crate::argument::{LookAheadArgument, LookAheadArguments};
use crate::children::LookAheadChildren;
use crate::gathering::gather_selected;
use crate::searching::find_first;
use crate::selected::Selected;
use graphql_collected::Request;
use graphql_schema::SchemaScalar;
use graphql_text::{Items, Spanning};
use graphql_tree::{Field, Selection, arguments_in};
use graphql_written_out::response_key;
use std::alloc::{AllocError, Global};

/// Where a field stands that is looked at.
#[derive_where(Clone, Copy)]
pub(crate) enum Source<'d, 'a, S> {
    /// In a document.
    Field(&'d Spanning<Field<'a, S>>),

    /// Nowhere: only its response key is known, and what is selected below it.
    Key(&'d str, Selected<'d, 'd, 'a, S>),
}

/// A field of a request that is looked at before it is answered, lent (GraphQL October 2021, 2.5
/// Fields).
#[derive(Drop)]
pub struct LookAheadSelection<'d, 'a, S, C = <S as SchemaScalar>::Check> {
    /// Where it stands.
    pub(crate) source: Source<'d, 'a, S>,

    /// To which objects it applies.
    pub(crate) applies: Applies<'d>,

    /// The request of which it is.
    pub(crate) request: &'d Request<'d, 'a, S, C>,
}

/// The selections of a field's set, none where it has none.
pub(crate) fn set_of<'d, 'a, S>(field: &'d Field<'a, S>) -> &'d [Selection<'a, S>]
    ensures { result.now ≡ listed field.now.selection_set }
{
    match &field.selection_set {
        Some(set) => set.as_slice(),
        None => &[],
    }
}

/// The arguments that are written at a field of a request.
fn arguments_of<'d, 'a, S, C>(
    request: &'d Request<'d, 'a, S, C>,
    field: &'d Field<'a, S>,
) -> LookAheadArguments<'d, 'a, S>
    ensures { arguments_left result
        ≡ map (argument_seen request.now.variables) (written_in field.now.arguments) }
{
    LookAheadArguments::new(arguments_in(&field.arguments), &request.variables)
}

/// The first field of this response key that directly stands in a list, left out or not.
fn first_in_list<'d, 'a, S>(
    list: &'d [Selection<'a, S>],
    key: &str,
) -> Option<&'d Spanning<Field<'a, S>>>
    ensures { option_copied result ≡ first_of_key key.now list.now }
{
    for selection in list {
        if let Selection::Field(field) = selection {
            if response_key(&field.item) == key {
                return Some(field);
            }
        }
    }
    None
}

/// The same of what is selected.
fn first_selected<'d, 'a, S>(
    selected: Selected<'d, 'd, 'a, S>,
    key: &str,
) -> Option<&'d Spanning<Field<'a, S>>>
    ensures { option_copied result ≡ first_of_key key.now (selections_of selected.entry) }
{
    let fields = match selected {
        Selected::Set(list) => return first_in_list(list, key),
        Selected::Below(fields) => fields,
    };
    for field in fields {
        if let Some(first) = first_in_list(set_of(&field.field.item), key) {
            return Some(first);
        }
    }
    None
}

impl<'d, 'a, S, C> LookAheadSelection<'d, 'a, S, C> {
    /// The first field of this response key that directly stands in what is given, left out or not,
    /// bound to no type. Where there is none, what stands for it: the key is its name, it has no
    /// alias and no arguments, and its children are those of what is selected below it.
    pub fn of_key(
        request: &'d Request<'d, 'a, S, C>,
        among: Option<Selected<'d, 'd, 'a, S>>,
        key: &'d str,
        below: Selected<'d, 'd, 'a, S>,
    ) -> LookAheadSelection<'d, 'a, S, C>
        ensures document_field { document_field result
            ≡ field_or_key (first_of_key key.now (none_or among.entry))
            key.now (selections_of below.entry) }
        ensures request { result.request.now ≡ request.now }
    {
        let first = match among {
            Some(given) => first_selected(given, key),
            None => None,
        };
        let source = match first {
            Some(field) => Source::Field(field),
            None => Source::Key(key, below),
        };
        LookAheadSelection {
            source,
            applies: Applies::All,
            request,
        }
    }

    /// The same field, lent once more.
    pub fn lent(&self) -> LookAheadSelection<'d, 'a, S, C>
        ensures { result ≡ self.now }
    {
        LookAheadSelection {
            source: self.source,
            applies: self.applies,
            request: self.request,
        }
    }

    /// The field's own name.
    pub fn field_original_name(&self) -> &'d str
        ensures { result.now ≡ spec.original_name (document_field self.now) }
    {
        match self.source {
            Source::Field(field) => field.item.name.item.as_str(),
            Source::Key(key, _) => key,
        }
    }

    /// The alias, if there is one (GraphQL October 2021, 2.7 Field Alias).
    pub fn field_alias(&self) -> Option<&'d str>
        ensures { option_copied result ≡ spec.alias (document_field self.now) }
    {
        match self.source {
            Source::Field(field) => match &field.item.alias {
                Some(alias) => Some(alias.item.as_str()),
                None => None,
            },
            Source::Key(_, _) => None,
        }
    }

    /// The response key: the alias, else the name.
    pub fn field_name(&self) -> &'d str
        ensures { result.now ≡ spec.key_of (document_field self.now) }
    {
        match self.source {
            Source::Field(field) => response_key(&field.item),
            Source::Key(key, _) => key,
        }
    }

    /// The type to which it is bound by the inline fragments around it, if to one.
    pub fn applies_for(&self) -> Option<&'d str>
        ensures { option_copied result ≡ spec.only (document_field self.now) }
    {
        match self.source {
            Source::Field(_) => self.applies.only(),
            Source::Key(_, _) => None,
        }
    }

    /// Whether it has arguments.
    pub fn has_arguments(&self) -> bool
        ensures { IsFalse result ↔ (spec.written_arguments (document_field self.now) ≡ []) }
    {
        match self.source {
            Source::Field(field) => !arguments_in(&field.item.arguments).is_empty(),
            Source::Key(_, _) => false,
        }
    }

    /// The arguments as they are written, in order, from both ends.
    pub fn arguments(&self) -> LookAheadArguments<'d, 'a, S>
        ensures { arguments_left result
            ≡ map (argument_seen self.now.request.now.variables)
            (spec.written_arguments (document_field self.now)) }
    {
        let request = self.request;
        let Source::Field(field) = self.source else {
            return LookAheadArguments::none();
        };
        arguments_of(request, &field.item)
    }

    /// The first argument of this name, or `None` where none has it.
    pub fn argument(&self, name: &str) -> Option<LookAheadArgument<'d, S>>
        ensures { option_map argument_told result
            ≡ argument_named
            (map (argument_seen self.now.request.now.variables)
            (spec.written_arguments (document_field self.now)))
            name.now }
    {
        self.arguments().get(name)
    }

    /// Whether it is not bound to another type than the one of this name.
    fn applies_to(&self, type_name: &str) -> bool
        ensures { result ≡ applies_to type_name.now (spec.only (document_field self.now)) }
    {
        match self.applies_for() {
            Some(name) => name == type_name,
            None => true,
        }
    }

    /// What is selected below it.
    fn selected(&self) -> Selected<'d, 'd, 'a, S>
        ensures { selections_of result ≡ spec.selected (document_field self.now) }
    {
        match self.source {
            Source::Field(field) => Selected::Set(set_of(&field.item)),
            Source::Key(_, selected) => selected,
        }
    }
}

impl<'d, 'a, S: SchemaScalar + Drop> LookAheadSelection<'d, 'a, S> {
    /// The children (GraphQL October 2021, 2.4 Selection Sets, 2.8 Fragments): the fields that are
    /// selected below it, in order, also through spreads and inline fragments, but for what is left
    /// out. A fragment that is spread twice has its children twice, so fragments that spread each
    /// other twice have more children than a request can be long: who asks for all of them pays for
    /// what they are. `child` does not. It takes no more stack however deep they stand. An error is
    /// want of memory.
    pub fn children(&self, alloc: Global) -> Result<LookAheadChildren<'d, 'a, S>, AllocError>
        requires { Settled (fragments_in self.now.request.now) }
        ensures children { let request = self.now.request.now in
            IfOk result (λ found. (children : List (Ahead S))
            × Children (drops_in S.answer request) (fragments_in request) None
            (spec.selected (document_field self.now)) children
            × (map looked_at found.children ≡ map (with_request request) children)) }
        ensures request { IfOk result (λ found.
            All (IsOfRequest self.now.request.now) found.children) }
    {
        let mut found = Items::new(alloc);
        gather_selected(alloc, self.request, self.selected(), &mut found)?;
        Ok(LookAheadChildren { children: found })
    }

    /// The children but for those that are bound to another type than the one of this name. An
    /// error is want of memory.
    pub fn children_for_explicit_type(
        &self,
        alloc: Global,
        type_name: &str,
    ) -> Result<LookAheadChildren<'d, 'a, S>, AllocError>
        requires { Settled (fragments_in self.now.request.now) }
        ensures children { let request = self.now.request.now in
            IfOk result (λ found. (children : List (Ahead S))
            × Children (drops_in S.answer request) (fragments_in request) None
            (spec.selected (document_field self.now)) children
            × (map looked_at found.children ≡ map (with_request request)
            (filter (λ child. applies_to type_name.now (spec.only child)) children))) }
        ensures request { IfOk result (λ found.
            All (IsOfRequest self.now.request.now) found.children) }
    {
        let all = self.children(alloc)?;
        let mut children = Items::new(alloc);
        for child in all.as_slice() {
            if child.applies_to(type_name) {
                children.push(child.lent())?;
            }
        }
        Ok(LookAheadChildren { children })
    }

    /// The first child of this response key (GraphQL October 2021, 2.4 Selection Sets, 2.8
    /// Fragments), or `None` where no child has it: that of the list that `children` gives, which
    /// there is whatever is selected. Each fragment is searched once, so it takes time in
    /// proportion to what is selected below the field and in fragments. An error is want of memory.
    pub fn child(
        &self,
        alloc: Global,
        key: &str,
    ) -> Result<Option<LookAheadSelection<'d, 'a, S>>, AllocError>
        requires { Settled (fragments_in self.now.request.now) }
        ensures children { let request = self.now.request.now in
            HasChildren (drops_in S.answer request) (fragments_in request) None
            (spec.selected (document_field self.now)) }
        ensures first { IfOk result (IsFirst S.answer self.now.request.now key.now
            (spec.selected (document_field self.now))) }
        ensures request { IfOk result (λ found. IfSome found (IsOfRequest self.now.request.now)) }
    {
        find_first(alloc, self.request, key, self.selected())
    }
}
