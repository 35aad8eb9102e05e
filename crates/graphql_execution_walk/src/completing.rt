//! Completion by resolvers, of answers of their own.

ghost use Rattle.std.specs.Prelude.{◌≡◌, ◌++◌, IfOk, Ok, OnErr, OnOk, reverse, unwrap_or};
ghost use Rattle.graphql_output_values.specs.declared.value.Value.TheVariants as value;
ghost use Rattle.graphql_execution_walk.specs.Asked.{map_nodes};
ghost use Rattle.graphql_execution_walk.specs.declared.asked.Asked.TheVariants as asked;
ghost use Rattle.graphql_execution_walk.specs.Begins.{BeginsOrErrs, Completes};
ghost use Rattle.graphql_execution_walk.specs.Completions.{own_error_here, outcome_here};
ghost use Rattle.graphql_execution_walk.specs.Engines.{engine_of};
ghost use Rattle.graphql_execution_walk.specs.FieldPaths.{start_of_path};
ghost use Rattle.graphql_execution_walk.specs.Sets.{sets_of};
ghost use Rattle.graphql_execution_walk.specs.Standing.{IsSettled};

use crate::asked::{Asked, of_resolver};
use crate::beginning::{Spot, begin};
use crate::context::FromContext;
use crate::evaluating::Evaluating;
use crate::executor::Executor;
use crate::frames::{Begun, KnownGroups};
use crate::graphql_value::GraphQLValue;
use crate::parts::or_null;
use crate::report::Report;
use crate::stack::drive;
use graphql_field_results::{ExecutionError, FieldFault, FieldResult, Resolved};
use graphql_output_values::Value;
use graphql_schema::SchemaScalar;
use graphql_text::{Items, TextRef};
use std::alloc::AllocError;

/// What an answer comes to at the type at which an executor stands.
fn begin_here<'d, 'a, S: SchemaScalar + Drop, R: GraphQLValue<S>>(
    resolver: &R,
    executor: &Executor<'_, 'd, 'a, R::Context, S>,
    answer: Resolved<S, Asked<'d, S, R::Node>>,
) -> FieldResult<Begun<'d, 'a, S, Asked<'d, S, R::Node>>, S>
    requires { IsSettled executor.now }
    ensures { let here = ⟦<R as Evaluating<S>>⟧.here resolver.now executor.now in
        BeginsOrErrs here (sets_of here.fragments executor.now.selected)
        executor.now.current_type.name.now (start_of_path executor.now.path)
        (reverse executor.now.current_type.modifiers.now) (Ok answer.entry) result }
{
    let name = TextRef::new(executor.current_type.name);
    let known: Option<&KnownGroups<'d, 'a, S>> = None;
    let spot = Spot {
        name: &name,
        is_leaf: None,
        selected: executor.selected,
        location: *executor.location(),
        known,
    };
    begin(
        resolver,
        executor,
        &spot,
        executor.current_type.modifiers,
        answer,
    )
}

impl<'c, 'd, 'a, Context, S: SchemaScalar + Drop> Executor<'c, 'd, 'a, Context, S> {
    /// The value of an answer at the current type (GraphQL October 2021, 6.4.3 Value Completion),
    /// with what is selected from its objects. What fails below the place of the answer is told,
    /// behind the errors that were told, and may leave the place without a value. A place without
    /// one is `null` where its type lets `null` stand; else the place around it has none either.
    ///
    /// An error is that of the place itself: the answer does not fit the type, or is a `null` that
    /// may not stand there. Nothing is told then, nor where memory runs out.
    pub fn resolve<R: GraphQLValue<S, Context = Context>>(
        &self,
        resolver: &R,
        answer: Resolved<S, R::Node>,
        errors: &mut Items<ExecutionError<S>>,
    ) -> FieldResult<Option<Value<S>>, S>
        requires { IsSettled self.now }
        ensures { let here = ⟦<R as Evaluating<S>>⟧.here resolver.now self.now in
            let answer = map_nodes asked.Own answer in
            Completes (own_error_here here.engine self.now answer)
            (outcome_here here.engine self.now answer) errors.old result errors.new }
    {
        let answer = of_resolver(self.alloc, answer)?;
        self.resolve_asked(resolver, answer, errors)
    }

    /// The value of what is asked, where an answer has been made of one of a resolver or of the
    /// schema: as `resolve` gives it.
    pub fn resolve_asked<R: GraphQLValue<S, Context = Context>>(
        &self,
        resolver: &R,
        answer: Resolved<S, Asked<'d, S, R::Node>>,
        errors: &mut Items<ExecutionError<S>>,
    ) -> FieldResult<Option<Value<S>>, S>
        requires { IsSettled self.now }
        ensures { let here = ⟦<R as Evaluating<S>>⟧.here resolver.now self.now in
            Completes (own_error_here here.engine self.now answer.entry)
            (outcome_here here.engine self.now answer.entry) errors.old result errors.new }
    {
        let begun = begin_here(resolver, self, answer)?;
        let mut report = Report {
            path: self.path.lent_keys(self.alloc)?,
            errors: Items::new(self.alloc),
        };
        let value = drive(resolver, self, begun, &mut report)?;
        errors.append(&mut report.errors)?;
        Ok(value)
    }

    /// The same, over a context within this one.
    pub fn resolve_with_ctx<
        Within: FromContext<Context> + 'c,
        R: GraphQLValue<S, Context = Within>,
    >(
        &self,
        resolver: &R,
        answer: Resolved<S, R::Node>,
        errors: &mut Items<ExecutionError<S>>,
    ) -> FieldResult<Option<Value<S>>, S>
        requires { IsSettled self.now }
        ensures { let context = Within.within self.now.context.now in
            let e = engine_of S.of_text S.of_bool S.answer self.now.request.now
            (R.type_of resolver.now context) (R.answer resolver.now context) in
            let answer = map_nodes asked.Own answer in
            Completes (own_error_here e self.now answer) (outcome_here e self.now answer) errors.old
            result errors.new }
    {
        let within = self.replaced_context(Within::from(self.context));
        within.resolve(resolver, answer, errors)
    }

    /// The value of an answer at the current type, `null` where it has none. All that fails is
    /// told, the place itself among it, behind the errors that were told. An error is want of
    /// memory, and nothing is told then.
    pub fn resolve_into_value<R: GraphQLValue<S, Context = Context>>(
        &self,
        resolver: &R,
        answer: Resolved<S, R::Node>,
        errors: &mut Items<ExecutionError<S>>,
    ) -> Result<Value<S>, AllocError>
        requires { IsSettled self.now }
        ensures value { let here = ⟦<R as Evaluating<S>>⟧.here resolver.now self.now in
            let answer = map_nodes asked.Own answer in
            IfOk result (λ v. v
            ≡ unwrap_or (outcome_here here.engine self.now answer).value value.Null) }
        ensures told { let here = ⟦<R as Evaluating<S>>⟧.here resolver.now self.now in
            let answer = map_nodes asked.Own answer in
            OnOk result (errors.new
            ≡ errors.old ++ (outcome_here here.engine self.now answer).failures) }
        ensures kept { OnErr result (errors.new ≡ errors.old) }
    {
        match self.resolve(resolver, answer, errors) {
            Ok(value) => Ok(or_null(value)),
            Err(FieldFault::Error(error)) => {
                self.push_error(error, errors)?;
                Ok(Value::Null)
            }
            Err(FieldFault::Memory) => Err(AllocError),
        }
    }
}
