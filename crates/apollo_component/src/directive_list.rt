//! The directives of a type or of the schema's definition, in order: GraphQL specification of October 2021,
//! section 2.12.
ghost use Rattle.std.specs.Prelude.{◌≡◌, ◌<◌, ◌^◌, [], ◌∷◌, ◌++◌, length, filter, find, IfOk, OnOk, OnErr, ⊤};
ghost use Rattle.std.specs.Borrow.{sem};
ghost use Rattle.std.specs.List.{list_any};
ghost use Rattle.std.specs.Option.{option_copied};
ghost use Rattle.std.specs.Iterator.{DrainsIf, IsFiniteIterable};
ghost use Rattle.std.specs.Iterator.Runs.{EveryRun, ItemsAre, ItemsMapTo};
ghost use Rattle.std.specs.Slice.Iter.{iter_rest, iter_steps, iter_mut_rest, iter_mut_steps};
ghost use Rattle.std.specs.Vec.Iter.{into_iter_items, into_iter_len, into_iter_steps};
ghost use Rattle.apollo_component.specs.AppliedDirectives.{is_called, DirectivesInOrder};

use crate::component::Component;
use crate::get_all::GetAll;
use graphql_ast::directive::Directive;
use graphql_nodes::collections::items::Items;
use graphql_nodes::name::Name;
use std::alloc::{AllocError, Global};
use std::ops::{Deref, DerefMut};
use std::slice::{Iter, IterMut};
use std::vec::IntoIter;

/// The directives applied to a type or to the schema's definition, in order. One directive may stand there
/// more than once.
///
/// Lists are equal, and hashed, by their directives in order: origins and locations are left out.
#[derive(Debug, PartialEq, Eq, Hash, Clone)]
pub struct DirectiveList(pub Items<Component<Directive>>);

impl Drop for DirectiveList {
    fn drop(self) {
        let Self(_) = self;
    }
}

impl DirectiveList {
    /// No directive.
    pub fn new(alloc: Global) -> DirectiveList
        ensures { result.0 ≡ [] }
    {
        DirectiveList(Items::new(alloc))
    }

    /// The directives that an iterator gives, in order. Premise: the iterator may be called, and ends. The
    /// error is out of memory, and drops what was given.
    pub fn try_from_iter<U: IntoIterator<Item = Component<Directive>>>(
        alloc: Global,
        directives: U,
    ) -> Result<DirectiveList, AllocError>
        requires { IsFiniteIterable U.into_iter_gives U.IntoIter.can_next U.IntoIter.remaining directives }
        ensures { IfOk result (λ list. (it : U.IntoIter) × U.into_iter_gives directives it
            × DrainsIf U.IntoIter.next_gives ⊤ it list.0) }
    {
        Ok(DirectiveList(Items::from_iter(alloc, directives)?))
    }

    /// The directives that have the name's text, in order. It is best for repeatable directives (section
    /// 3.13).
    pub fn get_all<'a, 'n>(&'a self, name: &'n Name) -> GetAll<'a, 'n>
        ensures rest { result ≡ filter (is_called name.now) self.now.0 }
        ensures runs { DirectivesInOrder }
    {
        GetAll::new(self.0.as_slice(), name)
    }

    /// The first directive that has the name's text, if there is one. It is best for directives that aren't
    /// repeatable.
    pub fn get(&self, name: &Name) -> Option<&Component<Directive>>
        ensures { option_copied result ≡ find (is_called name.now) self.now.0 }
    {
        self.0.iter().find(|directive| directive.name == *name)
    }

    /// Whether there is a directive that has the name's text.
    pub fn has(&self, name: &Name) -> bool
        ensures { result ≡ list_any (is_called name.now) self.now.0 }
    {
        self.0.iter().any(|directive| directive.name == *name)
    }

    /// Adds a directive at the end. The error is out of memory: the list is as it was, and the directive is
    /// dropped.
    pub fn push(&mut self, directive: Component<Directive>) -> Result<(), AllocError>
        ensures ok { OnOk result (self.new.0 ≡ self.old.0 ++ directive ∷ []) }
        ensures err { OnErr result (self.new ≡ self.old) }
    {
        self.0.push(directive)
    }
}

impl Deref for DirectiveList {
    type Target = Items<Component<Directive>>;

    ghost deref_gives = { λ list items. items ≡ list.0 };

    /// The directives, in order.
    fn deref(&self) -> &Items<Component<Directive>>
        ensures { result.now ≡ self.now.0 }
    {
        &self.0
    }
}

impl DerefMut for DirectiveList {
    ghost use Rattle.apollo_component.specs.DirectivesLending.{LendsDirectives};

    ghost deref_mut_gives = { λ list items. items ≡ list.0 };

    /// The directives, to write to. When the loan ends, the list has the directives that were written.
    fn deref_mut(&mut self) -> &mut Items<Component<Directive>>
        ensures* writes_back { sem 𝓛 (LendsDirectives self.entry result) }
        ensures value { result.now ≡ self.old.0 }
    {
        &mut self.0
    }
}

impl IntoIterator for DirectiveList {
    ghost use Rattle.std.specs.declared.alloc.Global.{Global};
    ghost use Rattle.graphql_ast.specs.declared.directive.Directive.{Directive};
    ghost use Rattle.apollo_component.specs.declared.component.Component.{Component};

    type Item = Component<Directive>;

    type IntoIter = IntoIter<Component<Directive>>;

    ghost into_iter_gives = { λ list r. (into_iter_items r ≡ list.0) × (into_iter_len r ≡ length list.0)
        × (into_iter_len r < 2 ^ 64)
        × EveryRun (into_iter_steps {X = Component Directive} {Z = Global})
        (λ p. ItemsAre p (into_iter_items p.from)) };

    /// The directives themselves, one by one, in order.
    fn into_iter(self) -> IntoIter<Component<Directive>> {
        let DirectiveList(directives) = self;
        directives.into_iter()
    }
}

impl<'a> IntoIterator for &'a DirectiveList {
    ghost use Rattle.graphql_ast.specs.declared.directive.Directive.{Directive};
    ghost use Rattle.apollo_component.specs.declared.component.Component.{Component};

    type Item = &'a Component<Directive>;

    type IntoIter = Iter<'a, Component<Directive>>;

    ghost into_iter_gives = { λ list r. (iter_rest r ≡ list.now.0) × (length (iter_rest r) < 2 ^ 64)
        × EveryRun (iter_steps {A = Component Directive})
        (λ p. ItemsMapTo p (λ y. y.now) (iter_rest p.from)) };

    /// The directives, one by one, in order.
    fn into_iter(self) -> Iter<'a, Component<Directive>> {
        self.0.iter()
    }
}

impl<'a> IntoIterator for &'a mut DirectiveList {
    ghost use Rattle.graphql_ast.specs.declared.directive.Directive.{Directive};
    ghost use Rattle.apollo_component.specs.declared.component.Component.{Component};
    ghost use Rattle.apollo_component.specs.DirectivesLending.{LendsEachDirective};

    type Item = &'a mut Component<Directive>;

    type IntoIter = IterMut<'a, Component<Directive>>;

    ghost into_iter_gives = { λ list r. (iter_mut_rest r ≡ list.now.0) × (length (iter_mut_rest r) < 2 ^ 64)
        × EveryRun (iter_mut_steps {A = Component Directive})
        (λ p. ItemsMapTo p (λ y. y.now) (iter_mut_rest p.from)) };

    /// The directives, to write to, one by one, in order. When the walk ends, the list has what was written.
    fn into_iter(self) -> IterMut<'a, Component<Directive>>
        ensures* writes_back { sem 𝓛 (LendsEachDirective self.entry result) }
        ensures into_iter_gives { (iter_mut_rest result ≡ self.old.0)
            × (length (iter_mut_rest result) < 2 ^ 64)
            × EveryRun (iter_mut_steps {A = Component Directive})
            (λ p. ItemsMapTo p (λ y. y.now) (iter_mut_rest p.from)) }
    {
        (&mut self.0).into_iter()
    }
}
