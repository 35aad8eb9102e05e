//! The table resolver.

ghost use Rattle.std.specs.Prelude.{◌≡◌, IfOk};
ghost use Rattle.std.specs.Option.{option_map};
ghost use Rattle.graphql_text.specs.Memory.{Gives};
ghost use Rattle.graphql_table.specs.Changes as spec;
ghost use Rattle.graphql_table.specs.Resolvers.{IsResolverOf};

use crate::types::table_types;
use graphql_arguments::Arguments;
use graphql_field_results::{FieldResult, Resolved};
use graphql_mutation::{Executor, GraphQLMutationValue, GraphQLValue};
use graphql_names::NamedItems;
use graphql_records::{
    Answer, Records, TableNode, TableType, known_field, node_answer, set_asked, type_of,
};
use graphql_scalars::DefaultScalarValue;
use graphql_schema::SchemaType;
use graphql_text::Text;
use std::alloc::{AllocError, Global};

/// Answers from records, by what it keeps of a schema (GraphQL October 2021, 6.4.2 Value
/// Resolution): a field answers the value that the record has for it, of which texts are links to
/// records at a composite type, and a field of the mutation's root sets fields of a record (6.2.2
/// Mutation).
#[derive(Drop)]
pub struct TableResolver {
    types: NamedItems<TableType>,
    mutation: Option<Text>,
}

/// A text of its own, if there is one. An error is want of memory.
fn text_or_none(alloc: Global, words: Option<&str>) -> Result<Option<Text>, AllocError>
    ensures { Gives result (option_map (λ word. word.now) words.entry) }
{
    match words {
        Some(words) => Ok(Some(Text::from_str(alloc, words)?)),
        None => Ok(None),
    }
}

impl TableResolver {
    /// The resolver of a schema: it keeps its own table of fields and possible types, and the name
    /// of the mutation's root. An error is want of memory.
    pub fn new(
        alloc: Global,
        schema: &SchemaType<DefaultScalarValue>,
    ) -> Result<TableResolver, AllocError>
        ensures { IfOk result (IsResolverOf schema.now) }
    {
        Ok(TableResolver {
            types: table_types(alloc, schema)?,
            mutation: text_or_none(alloc, schema.mutation_name())?,
        })
    }

    /// The innermost name of the type of a field of the mutation's root, if the root has the field.
    fn root_type(&self, field: &str) -> Option<&str>
        ensures { let found = option_map (λ name. name.now) result in
            found ≡ spec.root_type self.now.types self.now.mutation field.now }
    {
        match &self.mutation {
            Some(object) => match known_field(&self.types, object.as_str(), field) {
                Some(known) => Some(known.of_type.as_str()),
                None => None,
            },
            None => None,
        }
    }
}

impl GraphQLValue<DefaultScalarValue> for TableResolver {
    type Context = Records;

    type Node = TableNode;

    ghost use Rattle.std.specs.Prelude.{Ok};
    ghost use Rattle.std.proofs.Common.{ap};
    ghost use Rattle.graphql_records.specs.Answers as answers;
    ghost use Rattle.graphql_records.specs.declared.table_node.TableNode.TheVariants as node;
    ghost use Rattle.graphql_records.proofs.ExactScalars.{scalars_are_exact};
    ghost use Rattle.graphql_records.proofs.Respects.{answers_respect};

    ghost root_node = { λ _. node.Root };

    ghost type_of = { λ _ table n. answers.type_of table n };

    ghost answer = { λ r table n field given. Ok (answers.answer r.types table n field given) };

    ghost respects = { λ r table n field a b same.
        ap Ok (answers_respect _ scalars_are_exact r.types table n field a b same) };

    ghost tells_distinct_keys = { λ _ _ _ _ _. record { beside = tt } };

    /// The record from which queries start.
    fn root(&self) -> TableNode
        ensures { result ≡ node.Root }
    {
        TableNode::Root
    }

    fn concrete_type_name<'c>(&'c self, context: &'c Records, node: &'c TableNode) -> &'c str
        ensures { result.now ≡ answers.type_of context.now node.now }
    {
        type_of(context, node)
    }

    fn resolve_field(
        &self,
        node: &TableNode,
        field: &str,
        arguments: &Arguments<'_, DefaultScalarValue>,
        executor: &Executor<'_, '_, '_, Records, DefaultScalarValue>,
    ) -> FieldResult<Answer, DefaultScalarValue> {
        let records = executor.context;
        Ok(node_answer(executor.alloc, &self.types, records, node, field, arguments)?)
    }
}

impl GraphQLMutationValue<DefaultScalarValue> for TableResolver {
    ghost use Rattle.graphql_arguments.specs.GivenValues.{arguments_told};
    ghost use Rattle.graphql_field_results.specs.Answered.{Answered, Leaves};
    ghost use Rattle.graphql_records.proofs.ExactScalars.{scalars_are_exact};
    ghost use Rattle.graphql_table.specs.Changes as spec;
    ghost use Rattle.graphql_table.specs.ChangeLaws.{changes_respect, changes_tell};

    ghost changes = { λ r. spec.changes r.types r.mutation };

    ghost respects_root = { λ r table field a b same.
        changes_respect _ scalars_are_exact r.types r.mutation table field a b same };

    ghost root_tells_distinct_keys = { λ r table field given.
        changes_tell r.types r.mutation table field given };

    /// What a field of the mutation's root answers, and sets: null, and nothing, for one that the
    /// schema lacks.
    fn resolve_root(
        &self,
        alloc: Global,
        context: &mut Records,
        field: &str,
        arguments: &Arguments<'_, DefaultScalarValue>,
    ) -> FieldResult<Answer, DefaultScalarValue>
        ensures answer { let given = arguments_told arguments.now in
            let changes = spec.changes self.now.types self.now.mutation in
            Answered (changes.answer context.old field.now given) result }
        ensures after { let given = arguments_told arguments.now in
            let changes = spec.changes self.now.types self.now.mutation in
            Leaves context.old (changes.after context.old field.now given) result context.new }
    {
        match self.root_type(field) {
            Some(of_type) => set_asked(alloc, &self.types, context, of_type, arguments),
            None => Ok(Resolved::Null),
        }
    }
}
