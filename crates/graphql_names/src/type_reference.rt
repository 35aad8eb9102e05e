//! References to types.

ghost use Rattle.std.specs.Prelude.{◌≡◌, [], ◌∷◌, ◌++◌, IfOk, Some, None, if◌then◌else◌};
ghost use Rattle.std.specs.Option.{option_map, option_copied};
ghost use Rattle.graphql_text.specs.Memory.{Gives};
ghost use Rattle.graphql_names.specs.TypeReference as spec;
ghost use Rattle.graphql_names.specs.declared.type_modifier.TypeModifier.TheVariants as modifier;

mod clones;
mod display;

use crate::type_modifier::{TypeModifier, TypeModifiers};
use graphql_text::{Items, TextRef};
use std::alloc::{AllocError, Global};
use std::convert::{AsSlice, AsStr};

/// A type's name and its wraps, the innermost first (GraphQL October 2021, 2.11 Type References).
#[derive(Debug, Drop, PartialEq, Eq)]
pub struct Type<N, M = TypeModifiers> {
    /// The name.
    pub name: N,

    /// The wraps, the innermost first.
    pub modifiers: M,
}

/// A type that is lent.
pub type BorrowedType<'a> = Type<TextRef<'a>, &'a [TypeModifier]>;

impl<N: AsStr, M: AsSlice<TypeModifier>> Type<N, M> {
    /// The name of a named type, also where it has no `null`; a list has none.
    pub fn name(&self) -> Option<&str>
        ensures { option_map (λ name. name.now) result ≡ (if spec.has_list
            (M.items self.now.modifiers) then None else Some (N.text self.now.name)) }
    {
        if self.is_list() {
            None
        } else {
            Some(self.name.as_str())
        }
    }

    /// The name, within every wrap.
    pub fn innermost_name(&self) -> &str
        ensures { result.now ≡ N.text self.now.name }
    {
        self.name.as_str()
    }

    /// The type, lent.
    pub fn borrowed(&self) -> BorrowedType<'_>
        ensures name { result.name ≡ N.text self.now.name }
        ensures modifiers { result.modifiers.now ≡ M.items self.now.modifiers }
    {
        Type {
            name: TextRef::new(self.name.as_str()),
            modifiers: self.modifiers.as_slice(),
        }
    }
}

impl<N, M: AsSlice<TypeModifier>> Type<N, M> {
    /// The outermost wrap, if there is one.
    pub fn modifier(&self) -> Option<&TypeModifier>
        ensures { option_copied result ≡ spec.outermost (M.items self.now.modifiers) }
    {
        self.modifiers().last()
    }

    /// The wraps, the innermost first.
    pub fn modifiers(&self) -> &[TypeModifier]
        ensures { result.now ≡ M.items self.now.modifiers }
    {
        self.modifiers.as_slice()
    }

    /// Whether `null` is no value of the type, whatever it holds.
    pub fn is_non_null(&self) -> bool
        ensures { result ≡ spec.is_non_null (spec.outermost (M.items self.now.modifiers)) }
    {
        match self.modifier() {
            Some(TypeModifier::NonNull) => true,
            Some(TypeModifier::List(_)) => false,
            None => false,
        }
    }

    /// Whether a list is among the wraps.
    pub fn is_list(&self) -> bool
        ensures { result ≡ spec.has_list (M.items self.now.modifiers) }
    {
        for modifier in self.modifiers() {
            if let TypeModifier::List(_) = modifier {
                return true;
            }
        }
        false
    }
}

impl<N> Type<N> {
    /// The type of this name, without a wrap. Takes no memory until the first wrap.
    pub fn new(alloc: Global, name: N) -> Type<N>
        ensures { result ≡ record { name = name; modifiers = [] } }
    {
        Type {
            name,
            modifiers: Items::new(alloc),
        }
    }

    /// The same type with `null` among its values.
    pub fn nullable(self) -> Type<N>
        ensures { result ≡ record { name = self.name; modifiers = spec.nullable self.modifiers } }
    {
        let Type {
            name,
            mut modifiers,
        } = self;
        if let Some(TypeModifier::NonNull) = modifiers.last() {
            modifiers.pop();
        }
        Type { name, modifiers }
    }
}

impl<N: Drop> Type<N> {
    /// Lists of this type, of `size` items where it is given. An error is want of memory.
    pub fn wrap_list(self, size: Option<usize>) -> Result<Type<N>, AllocError>
        ensures { Gives result
            (record { name = self.name; modifiers = self.modifiers ++ modifier.List size ∷ [] }) }
    {
        self.wrap(TypeModifier::List(size))
    }

    /// The same type without `null`. An error is want of memory.
    pub fn wrap_non_null(self) -> Result<Type<N>, AllocError>
        ensures { Gives result
            (record { name = self.name; modifiers = self.modifiers ++ modifier.NonNull ∷ [] }) }
    {
        self.wrap(TypeModifier::NonNull)
    }

    /// The type with one more wrap around it.
    fn wrap(self, modifier: TypeModifier) -> Result<Type<N>, AllocError>
        ensures { Gives result
            (record { name = self.name; modifiers = self.modifiers ++ modifier ∷ [] }) }
    {
        let Type {
            name,
            mut modifiers,
        } = self;
        modifiers.push(modifier)?;
        Ok(Type { name, modifiers })
    }
}
