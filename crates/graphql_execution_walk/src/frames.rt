//! Objects and lists in progress.

use crate::prepared::SharedPrepared;
use crate::selected::KeptSelected;
use crate::shared::Shared;
use graphql_collect::Group;
use graphql_field_results::Resolved;
use graphql_names::{NameMap, Named, TypeModifier};
use graphql_output_values::{Key, Value};
use graphql_text::{Items, SourcePosition, TextRef};

/// An object in progress, whose groups are a `G`, and what is known of them a `P`.
#[derive(Drop)]
pub(crate) struct ObjectFrame<'d, S, N, G, P> {
    /// The node.
    pub node: N,

    /// The name of its object type, as the schema has it.
    pub object: TextRef<'d>,

    /// The groups of its fields.
    pub groups: G,

    /// What is known of their first fields; `None` where nothing is.
    pub prepared: Option<P>,

    /// The group that comes next, from zero; while a frame stands above this one, the group that
    /// waits for it.
    pub next: usize,

    /// Whether the place that waits keeps `null` out.
    pub is_needed: bool,

    /// The members so far; `None` once one is missing.
    pub members: Option<Items<(Key, Value<S>)>>,
}

/// What is selected from an object type: its groups, which are a `G`, and what is known of them, a
/// `P`.
#[derive(Drop)]
pub(crate) struct Known<'d, G, P> {
    /// The name of the object type, as the schema has it.
    pub object: TextRef<'d>,

    /// Its groups.
    pub groups: G,

    /// What is known of their first fields; `None` where nothing is.
    pub prepared: Option<P>,
}

/// Groups are found by the object type.
impl<'d, G, P> Named for Known<'d, G, P> {
    ghost name_of = { λ known. known.object };

    fn name(&self) -> &str {
        self.object.as_str()
    }
}

/// A list in progress, from whose items an `F` is selected.
#[derive(Drop)]
pub(crate) struct ListFrame<'d, S, N, G, P, F> {
    /// The name of the items' type.
    pub name: TextRef<'d>,

    /// What is selected from the items.
    pub selected: F,

    /// Where the field starts that has the list.
    pub location: SourcePosition,

    /// The wraps within the list, the innermost first.
    pub wraps: &'d [TypeModifier],

    /// The items that are left, the last first.
    pub items: Items<Resolved<S, N>>,

    /// The values so far; `None` once one is missing.
    pub values: Option<Items<Value<S>>>,

    /// What is selected from the items so far that were objects, by their types.
    pub known: NameMap<Known<'d, G, P>>,
}

/// An object or a list in progress.
#[derive(Drop)]
pub(crate) enum Frame<'d, S, N, G, P, F> {
    /// An object.
    Object(ObjectFrame<'d, S, N, G, P>),

    /// A list.
    List(ListFrame<'d, S, N, G, P, F>),
}

/// Groups of a document's fields, which an object and the list that it stands in both hold.
pub(crate) type SharedGroups<'d, 'a, S> = Shared<Items<Group<'d, 'a, S>>>;

/// What is selected from an object type, of a document's fields.
pub(crate) type KnownIn<'d, 'a, S> = Known<'d, SharedGroups<'d, 'a, S>, SharedPrepared<'d>>;

/// What is selected from several object types, each found by its name.
pub(crate) type KnownGroups<'d, 'a, S> = NameMap<KnownIn<'d, 'a, S>>;

/// An object in progress over a document's groups.
pub(crate) type ObjectFrameIn<'d, 'a, S, N> = ObjectFrame<
    'd,
    S,
    N,
    SharedGroups<'d, 'a, S>,
    SharedPrepared<'d>,
>;

/// A list in progress over a document.
pub(crate) type ListFrameIn<'d, 'a, S, N> = ListFrame<
    'd,
    S,
    N,
    SharedGroups<'d, 'a, S>,
    SharedPrepared<'d>,
    KeptSelected<'d, 'a, S>,
>;

/// An object or a list in progress over a document.
pub(crate) type FrameIn<'d, 'a, S, N> = Frame<
    'd,
    S,
    N,
    SharedGroups<'d, 'a, S>,
    SharedPrepared<'d>,
    KeptSelected<'d, 'a, S>,
>;

/// What a place has come to: its value, or what is in progress there.
#[derive(Drop)]
pub(crate) enum Begun<'d, 'a, S, N> {
    /// The value.
    Value(Option<Value<S>>),

    /// What is in progress.
    Frame(FrameIn<'d, 'a, S, N>),
}

/// What a group has come to, and whether its place keeps `null` out.
#[derive(Drop)]
pub(crate) struct Started<'d, 'a, S, N> {
    /// Whether the place keeps `null` out.
    pub is_needed: bool,

    /// What it has come to.
    pub begun: Begun<'d, 'a, S, N>,
}

/// What a turn leaves.
#[derive(Drop)]
pub(crate) enum Turned<'d, 'a, S, N> {
    /// The end, with the value.
    Done(Option<Value<S>>),

    /// What there is now.
    Open(Begun<'d, 'a, S, N>),
}
