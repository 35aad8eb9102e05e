//! What a resolver sees of an execution.

ghost use Rattle.std.specs.Prelude.{◌≡◌, ◌++◌, ◌∷◌, [], IfSome, IsSome, None, OnErr, OnOk, Some};
ghost use Rattle.std.specs.Option.{option_copied, option_map};
ghost use Rattle.graphql_collected.specs.Requests.{fragments_in, written_in};
ghost use Rattle.graphql_occurrences.specs.DeclaredLent.{literal_of};
ghost use Rattle.graphql_text.specs.Memory.{Gives};
ghost use Rattle.graphql_look_ahead.specs.Selections.{none_or};
ghost use Rattle.graphql_look_ahead.specs.Told.{IsOfRequest, looked_at};
ghost use Rattle.graphql_written_out.specs.Written.{fragment_meant};
ghost use Rattle.graphql_execution_walk.specs.FieldDeclarations.{declared_type};
ghost use Rattle.graphql_execution_walk.specs.FieldPaths.{error_at, keys_of, start_of_path};
ghost use Rattle.graphql_execution_walk.specs.LookedAhead.{FindsField, looked_ahead};
ghost use Rattle.graphql_execution_walk.specs.Sets.{set_given, sets_in, type_given};

use crate::field_path::FieldPath;
use crate::fields::declared_type;
use crate::selected::selections_of;
use graphql_collected::Request;
use graphql_field_results::{ExecutionError, FieldError};
use graphql_look_ahead::{LookAheadSelection, Selected};
use graphql_occurrences::TypeLiteral;
use graphql_schema::{SchemaScalar, SchemaType};
use graphql_text::{Items, SourcePosition, TextRef};
use graphql_tree::{Fragment, Selection};
use graphql_written_out::FinalVariables;
use std::alloc::{AllocError, Global};

/// The request that is executed, the context over which it is, and the field that is answered
/// (GraphQL October 2021, 6 Execution). The context is lent for a time of its own, so that it can
/// be written between the fields of one request.
#[derive(Drop)]
pub struct Executor<'c, 'd, 'a, Context, S, C = <S as SchemaScalar>::Check> {
    /// Where memory is taken.
    pub alloc: Global,

    /// The request.
    pub request: &'d Request<'d, 'a, S, C>,

    /// What resolvers answer from.
    pub context: &'c Context,

    /// Where the field stands that is answered.
    pub path: FieldPath<'d>,

    /// The type that the schema declares for that field; at the root the type of the root.
    pub current_type: TypeLiteral<'d>,

    /// What is selected from the objects of its answer; at the root what the operation selects.
    pub selected: Selected<'d, 'd, 'a, S>,

    /// Where the field is looked for that is answered, when it is looked at: the list in which it
    /// directly stands, or what the executor selects that was asked for this one; at the root
    /// nothing.
    pub among: Option<Selected<'d, 'd, 'a, S>>,
}

impl<'c, 'd, 'a, Context, S, C> Executor<'c, 'd, 'a, Context, S, C> {
    /// The executor of an operation that starts at this place of the request's text and has this
    /// selection set, at the root, which is an object of the type of this name.
    pub fn at_root(
        alloc: Global,
        request: &'d Request<'d, 'a, S, C>,
        context: &'c Context,
        object: &'d str,
        start: SourcePosition,
        set: &'d [Selection<'a, S>],
    ) -> Executor<'c, 'd, 'a, Context, S, C>
        ensures request { result.request.now ≡ request.now }
        ensures context { result.context.now ≡ context.now }
        ensures location { start_of_path result.path ≡ start }
        ensures path { keys_of result.path ≡ [] }
        ensures current_type { literal_of result.current_type
            ≡ record { name = object.now; modifiers = [] } }
        ensures selected { sets_in request.now result.selected
            ≡ written_in request.now set.now ∷ [] }
        ensures among { result.among ≡ None }
    {
        Executor {
            alloc,
            request,
            context,
            path: FieldPath::Root(start),
            current_type: TypeLiteral {
                name: object,
                modifiers: &[],
            },
            selected: Selected::Set(set),
            among: None,
        }
    }

    /// The executor of a field, by all the response keys that lead to it, its start, the type that
    /// the schema declares for it, the list in which it directly stands, and what is selected from
    /// the objects of its answer.
    pub fn at_field<'p>(
        &self,
        keys: &'p [TextRef<'d>],
        start: SourcePosition,
        declared: TypeLiteral<'p>,
        among: &'p [Selection<'a, S>],
        selected: Selected<'p, 'p, 'a, S>,
    ) -> Executor<'c, 'p, 'a, Context, S, C>
        ensures request { result.request.now ≡ self.now.request.now }
        ensures context { result.context.now ≡ self.now.context.now }
        ensures location { start_of_path result.path ≡ start }
        ensures path { keys_of result.path ≡ keys.now }
        ensures current_type { result.current_type ≡ declared.entry }
        ensures selected { result.selected ≡ selected.entry }
        ensures among { none_or result.among ≡ among.now }
    {
        Executor {
            alloc: self.alloc,
            request: self.request,
            context: self.context,
            path: FieldPath::Keys(keys, start),
            current_type: declared,
            selected,
            among: Some(Selected::Set(among)),
        }
    }

    /// The executor of a field of the current type, whose wraps do not count: the field of this
    /// name, to which all these response keys lead, its own the last, which starts at this place,
    /// and has this selection set, if it has one. `lent_keys` of the path gives the keys above it.
    /// The type must have a field of this name, which may be `__typename`; `declared_type` tells.
    /// Its `look_ahead` looks among what this one selects.
    pub fn field_sub_executor<'p>(
        &self,
        keys: &'p [TextRef<'d>],
        name: &str,
        location: SourcePosition,
        set: Option<&'p [Selection<'a, S>]>,
    ) -> Executor<'c, 'p, 'a, Context, S, C>
        requires { IsSome (declared_type self.now.request.now.schema.now.types
            self.now.current_type.name.now name.now) }
        ensures request { result.request.now ≡ self.now.request.now }
        ensures context { result.context.now ≡ self.now.context.now }
        ensures location { start_of_path result.path ≡ location }
        ensures path { keys_of result.path ≡ keys.now }
        ensures current_type { Some (literal_of result.current_type)
            ≡ declared_type self.now.request.now.schema.now.types self.now.current_type.name.now
            name.now }
        ensures selected { sets_in self.now.request.now result.selected
            ≡ written_in self.now.request.now (set_given set.entry) ∷ [] }
        ensures among { result.among ≡ Some self.now.selected }
    {
        let Some(declared) = declared_type(self.request.schema, self.current_type.name, name) else {
            unreachable!()
        };
        Executor {
            alloc: self.alloc,
            request: self.request,
            context: self.context,
            path: FieldPath::Keys(keys, location),
            current_type: declared,
            selected: Selected::Set(selections_of(set)),
            among: Some(self.selected),
        }
    }

    /// The executor of the same field at the type of this name, or at the same type where no name
    /// is given, from whose objects this set selects, if there is one. Nothing fits a type that the
    /// schema does not have. Its `look_ahead` looks among what this one selects.
    pub fn type_sub_executor(
        &self,
        type_name: Option<&'d str>,
        set: Option<&'d [Selection<'a, S>]>,
    ) -> Executor<'c, 'd, 'a, Context, S, C>
        ensures request { result.request.now ≡ self.now.request.now }
        ensures context { result.context.now ≡ self.now.context.now }
        ensures path { result.path ≡ self.now.path }
        ensures current_type { literal_of result.current_type
            ≡ type_given type_name.entry (literal_of self.now.current_type) }
        ensures selected { sets_in self.now.request.now result.selected
            ≡ written_in self.now.request.now (set_given set.entry) ∷ [] }
        ensures among { result.among ≡ Some self.now.selected }
    {
        let current_type = match type_name {
            Some(name) => TypeLiteral {
                name,
                modifiers: &[],
            },
            None => self.current_type,
        };
        Executor {
            alloc: self.alloc,
            request: self.request,
            context: self.context,
            path: self.path,
            current_type,
            selected: Selected::Set(selections_of(set)),
            among: Some(self.selected),
        }
    }

    /// The executor of the same field over another context.
    pub fn replaced_context<'o, Other>(
        &self,
        context: &'o Other,
    ) -> Executor<'o, 'd, 'a, Other, S, C>
        ensures request { result.request.now ≡ self.now.request.now }
        ensures context { result.context.now ≡ context.now }
        ensures path { result.path ≡ self.now.path }
        ensures current_type { result.current_type ≡ self.now.current_type }
        ensures selected { result.selected ≡ self.now.selected }
        ensures among { result.among ≡ self.now.among }
    {
        Executor {
            alloc: self.alloc,
            request: self.request,
            context,
            path: self.path,
            current_type: self.current_type,
            selected: self.selected,
            among: self.among,
        }
    }

    /// The field that is answered, to look at what is selected below it; at the root, which is no
    /// field, `None`. It is the first field of its response key, left out or not, in the list in
    /// which the field directly stands that a resolver is asked for, where there always is one. In
    /// an executor that `field_sub_executor` or `type_sub_executor` gave, it is looked for in what
    /// the executor selects that was asked for this one. Where no field of the key directly stands
    /// there, the key stands for it, as its name, without alias and arguments, with what this
    /// executor selects.
    pub fn look_ahead(&self) -> Option<LookAheadSelection<'d, 'a, S, C>>
        ensures told { option_map looked_at result ≡ looked_ahead self.now }
        ensures found { FindsField self.now result }
        ensures request { IfSome result (IsOfRequest self.now.request.now) }
    {
        let Some(key) = self.path.key() else {
            return None;
        };
        let found = LookAheadSelection::of_key(self.request, self.among, key, self.selected);
        Some(found)
    }

    /// Where memory is taken.
    pub fn alloc(&self) -> Global {
        self.alloc
    }

    /// What resolvers answer from.
    pub fn context(&self) -> &'c Context
        ensures { result.now ≡ self.now.context.now }
    {
        self.context
    }

    /// The schema.
    pub fn schema(&self) -> &'d SchemaType<S, C>
        ensures { result.now ≡ self.now.request.now.schema.now }
    {
        self.request.schema
    }

    /// The final values of the operation's variables.
    pub fn variables(&self) -> &'d FinalVariables<'d, S>
        ensures { result.now ≡ self.now.request.now.variables }
    {
        &self.request.variables
    }

    /// The fragment of this name: of several the first, which no valid document has.
    pub fn fragment_by_name(&self, name: &str) -> Option<&'d Fragment<'a, S>>
        ensures { option_copied result
            ≡ fragment_meant (fragments_in self.now.request.now) name.now }
    {
        self.request.fragments.get(name)
    }

    /// The type that the schema declares for the field that is answered; at the root the type of
    /// the root.
    pub fn current_type(&self) -> TypeLiteral<'d>
        ensures { result ≡ self.now.current_type }
    {
        self.current_type
    }

    /// Where the field starts that is answered; at the root where the operation does.
    pub fn location(&self) -> &SourcePosition
        ensures { result.now ≡ start_of_path self.now.path }
    {
        self.path.location()
    }

    /// The error of the field that is answered (GraphQL October 2021, 7.1.2 Errors): at its start,
    /// with its path. An error is want of memory.
    pub fn new_error(&self, error: FieldError<S>) -> Result<ExecutionError<S>, AllocError>
    where
        S: Drop,
        ensures { Gives result (error_at (start_of_path self.now.path) self.now.path error) }
    {
        self.error_at(error, *self.location())
    }

    /// The same error, told of another place.
    fn error_at(
        &self,
        error: FieldError<S>,
        location: SourcePosition,
    ) -> Result<ExecutionError<S>, AllocError>
    where
        S: Drop,
        ensures { Gives result (error_at location self.now.path error) }
    {
        let path = self.path.keys(self.alloc)?;
        Ok(ExecutionError::new(location, path, error))
    }

    /// Tells the error of the field that is answered, behind those that were told. An error is want
    /// of memory, and nothing is told then.
    pub fn push_error(
        &self,
        error: FieldError<S>,
        errors: &mut Items<ExecutionError<S>>,
    ) -> Result<(), AllocError>
    where
        S: Drop,
        ensures told { OnOk result (errors.new
            ≡ errors.old
            ++ error_at (start_of_path self.now.path) self.now.path error ∷ []) }
        ensures kept { OnErr result (errors.new ≡ errors.old) }
    {
        self.push_error_at(error, *self.location(), errors)
    }

    /// Tells the error of the field that is answered as one of another place, behind those that
    /// were told. An error is want of memory, and nothing is told then.
    pub fn push_error_at(
        &self,
        error: FieldError<S>,
        location: SourcePosition,
        errors: &mut Items<ExecutionError<S>>,
    ) -> Result<(), AllocError>
    where
        S: Drop,
        ensures told { OnOk result
            (errors.new ≡ errors.old ++ error_at location self.now.path error ∷ []) }
        ensures kept { OnErr result (errors.new ≡ errors.old) }
    {
        let error = self.error_at(error, location)?;
        errors.push(error)?;
        Ok(())
    }
}
