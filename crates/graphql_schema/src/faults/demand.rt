//! What is asked of the types that names refer to.

ghost use Rattle.std.specs.Prelude.{◌≡◌};
ghost use Rattle.std.specs.Option.{option_copied};
ghost use Rattle.graphql_schema.specs.Demands.{is_unmet};

use crate::MetaType;

/// What is asked of the type that a name refers to.
#[derive(Clone, Copy)]
pub(super) enum Demand {
    /// There is one.
    Known,

    /// It is no input object, as the types of fields (GraphQL October 2021, 3.4.2 Input and Output
    /// Types).
    Output,

    /// It is no object, no interface and no union, as the types of arguments and input fields
    /// (3.4.2).
    Input,

    /// It is an object, as the members of unions (3.8 Unions).
    Object,

    /// It is an interface, as those that a type lists (3.6 Objects, 3.7 Interfaces).
    Interface,

    /// It is a scalar.
    Scalar,
}

/// Whether the type that a name has, if there is one, is not what is asked for. `Output` and
/// `Input` ask nothing of a name that no type has.
pub(super) fn is_unmet<S, C>(wanted: Demand, found: Option<&MetaType<S, C>>) -> bool
    ensures { result ≡ is_unmet wanted (option_copied found.entry) }
{
    match wanted {
        Demand::Known => found.is_none(),
        Demand::Output => matches!(found, Some(MetaType::InputObject(_))),
        Demand::Input => matches!(
            found,
            Some(MetaType::Object(_) | MetaType::Interface(_) | MetaType::Union(_))
        ),
        Demand::Object => !matches!(found, Some(MetaType::Object(_))),
        Demand::Interface => !matches!(found, Some(MetaType::Interface(_))),
        Demand::Scalar => !matches!(found, Some(MetaType::Scalar(_))),
    }
}
