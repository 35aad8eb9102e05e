//! What a visitor sees of a document, and the errors that it reports.

ghost use Rattle.std.specs.Prelude.{◌≡◌, ◌∷◌, ◌++◌, [], false, true, Ok, None, IfOk, OnOk, OnErr};
ghost use Rattle.std.specs.Prelude.{IsPermutation};
ghost use Rattle.std.specs.List.Sorted.{IsSorted};
ghost use Rattle.std.specs.Option.{is_some, option_copied, option_map};
ghost use Rattle.graphql_occurrences.specs.Lookups.{declarations_of};
ghost use Rattle.graphql_occurrences.specs.Events.{top};
ghost use Rattle.graphql_occurrences.specs.Lent.{around_of, literal_of};
ghost use Rattle.graphql_occurrences.specs.Lookups.{referred};
ghost use Rattle.graphql_rule_errors.specs.declared.rule_error.RuleError.{RuleError};
ghost use Rattle.graphql_tree.specs.Definitions.{fragment_named};
ghost use Rattle.graphql_visitors.specs.Reports.{Adds, Reports};

use graphql_occurrences::{Around, InputPlace, SchemaType, TypeLiteral};
use graphql_rule_errors::RuleError;
use graphql_schema::{MetaType, SchemaScalar};
use graphql_text::{Items, SourcePosition, Spanning, Text, TextRef};
use graphql_tree::Definition;
use graphql_written_out::Fragments;
use std::alloc::{AllocError, Global};
use std::mem;

/// What is validated, the types around the node that is visited, and the errors that have been
/// reported so far (GraphQL October 2021, 5 Validation).
#[derive(Drop)]
pub struct ValidatorContext<'a, 't, S, C = <S as SchemaScalar>::Check> {
    alloc: Global,
    schema: &'a SchemaType<S, C>,
    fragments: Fragments<'a, 't, S>,
    pub(crate) around: Around<'a, S, C>,
    errors: Items<RuleError>,
    failed: bool,
}

impl<'a, 't, S, C> ValidatorContext<'a, 't, S, C> {
    /// A context for a document by a schema, without errors, where no type is known yet. Errors
    /// will stand in memory of `alloc`. An error is want of memory for the names of the fragments.
    pub fn new(
        alloc: Global,
        schema: &'a SchemaType<S, C>,
        document: &'a [Definition<'t, S>],
    ) -> Result<ValidatorContext<'a, 't, S, C>, AllocError>
        ensures schema { IfOk result (λ context. context.schema ≡ schema.entry) }
        ensures document { IfOk result (λ context. context.fragments.document ≡ document.entry) }
        ensures around { IfOk result (λ context. around_of context.around ≡ top None) }
        ensures errors { IfOk result (λ context. context.errors ≡ []) }
        ensures failed { IfOk result (λ context. context.failed ≡ false) }
    {
        let fragments = Fragments::new(alloc, document)?;
        Ok(ValidatorContext {
            alloc,
            schema,
            fragments,
            around: Around::nowhere(),
            errors: Items::new(alloc),
            failed: false,
        })
    }

    /// The allocator of the errors.
    pub fn alloc(&self) -> Global {
        self.alloc
    }

    /// The schema.
    pub fn schema(&self) -> &'a SchemaType<S, C>
        ensures { result ≡ self.now.schema }
    {
        self.schema
    }

    /// The document.
    pub fn document(&self) -> &'a [Definition<'t, S>]
        ensures { result ≡ self.now.fragments.document }
    {
        self.fragments.document()
    }

    /// The type of what is selected where the visitor stands, if the schema has it.
    pub fn current_type(&self) -> Option<&'a MetaType<S, C>>
        ensures { option_copied result
            ≡ referred (declarations_of self.now.schema.now)
            (option_map literal_of self.now.around.current) }
    {
        match self.around.current {
            Some(literal) => self.schema.concrete_type_by_name(literal.name),
            None => None,
        }
    }

    /// The reference to the type of what is selected where the visitor stands, if one is known.
    pub fn current_type_literal(&self) -> Option<TypeLiteral<'a>>
        ensures { result ≡ self.now.around.current }
    {
        self.around.current
    }

    /// The type that it is selected of, if it is known.
    pub fn parent_type(&self) -> Option<&'a MetaType<S, C>>
        ensures { result ≡ self.now.around.parent }
    {
        self.around.parent
    }

    /// The type of the values that are asked for where the visitor stands, if it is known.
    pub fn current_input_type_literal(&self) -> Option<TypeLiteral<'a>>
        ensures { option_map literal_of result
            ≡ option_map (λ place. literal_of place.asked) self.now.around.input }
    {
        match self.around.input {
            Some(place) => Some(place.asked),
            None => None,
        }
    }

    /// Where the value stands at which the visitor does, if that is known.
    pub fn input_place(&self) -> Option<InputPlace<'a>>
        ensures { result ≡ self.now.around.input }
    {
        self.around.input
    }

    /// Reports an error: what is said, and the places that it names. Where there was no memory to
    /// say it, or there is none to keep it, the context has failed.
    #[tactic(auto, using(crate::proofs::ReportLemmas::reports_added))]
    pub fn report_error(&mut self, message: Result<Text, AllocError>, locations: &[SourcePosition])
        ensures places { Reports (locations.now ∷ []) self.old self.new }
        ensures error { self.new.failed ≡ false
            → (text : _)
            × (message ≡ Ok text)
            × (self.new.errors ≡ self.old.errors ++ record {
              locations = locations.now;
              message = text;
            } ∷ []) }
    {
        match error_of(self.alloc, message, locations) {
            Ok(error) => self.keep(error),
            Err(_) => self.fail(),
        }
    }

    /// Keeps an error, if there is memory for it.
    fn keep(&mut self, error: RuleError)
        ensures { Adds (error ∷ []) self.old self.new }
    {
        if self.errors.push(error).is_err() {
            self.failed = true;
        }
    }

    /// Takes more errors, behind those that have been reported. Where there is no memory to keep
    /// them, the context has failed.
    pub fn append_errors(&mut self, mut errors: Items<RuleError>)
        ensures { Adds errors self.old self.new }
    {
        if self.errors.append(&mut errors).is_err() {
            self.failed = true;
        }
    }

    /// Exchanges the errors that have been reported for those of the list. Takes no memory.
    pub fn swap_errors(&mut self, errors: &mut Items<RuleError>)
        ensures context { self.new ≡ record self.old { errors = errors.old } }
        ensures errors { errors.new ≡ self.old.errors }
    {
        mem::swap(&mut self.errors, errors);
    }

    /// Tells that memory ran out: from here on the context has failed.
    pub fn fail(&mut self)
        ensures { self.new ≡ record self.old { failed = true } }
    {
        self.failed = true;
    }

    /// The errors that were reported, in order: by their places, and those of the same places by
    /// their messages. An error comes exactly where the context has failed, since memory ran out.
    /// Takes no memory.
    pub fn into_errors(self) -> Result<Items<RuleError>, AllocError>
        ensures ok { OnOk result (self.entry.failed ≡ false) }
        ensures err { OnErr result (self.entry.failed ≡ true) }
        ensures permutation { IfOk result (IsPermutation self.entry.errors) }
        ensures sorted { IfOk result (IsSorted ⟦<RuleError as Ord>⟧.cmp) }
    {
        if self.failed {
            return Err(AllocError);
        }
        let mut errors = self.errors.into_vec();
        errors.sort_unstable();
        Ok(Items::from_vec(errors))
    }

    /// The type condition of the fragment that a spread of this name means: the first fragment of
    /// the document that has the name. `None` where no fragment has it.
    pub fn fragment_condition(&self, name: &str) -> Option<&'a Spanning<TextRef<'t>>>
        ensures { option_copied result
            ≡ option_map (λ f. f.item.type_condition)
            (fragment_named self.now.fragments.document.now name.now) }
    {
        Some(&self.fragments.get(name)?.type_condition)
    }

    /// Whether the document has a fragment of this name.
    pub fn is_known_fragment(&self, name: &str) -> bool
        ensures { result ≡ is_some (fragment_named self.now.fragments.document.now name.now) }
    {
        self.fragments.get(name).is_some()
    }
}

/// The error of this message at these places. An error is want of memory.
fn error_of(
    alloc: Global,
    message: Result<Text, AllocError>,
    locations: &[SourcePosition],
) -> Result<RuleError, AllocError>
    ensures { IfOk result
        (λ error. (error.locations ≡ locations.now) × (message ≡ Ok error.message)) }
{
    RuleError::at(alloc, message?, locations)
}
