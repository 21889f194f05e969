//! Names: the GraphQL specification of October 2021, section 2.1.9.
ghost use Rattle.std.specs.Prelude.{◌≡◌, IfOk, IfErr, OnOk, None, Some, ◌↔◌, IsTrue, nat_eq};
ghost use Rattle.std.specs.Cmp.{on_equiv, on_per, on_total, on_po};
ghost use Rattle.std.specs.Cmp.Rules.{hashing};
ghost use Rattle.std.specs.Cmp.Lexicographic.{pointwise, slice_cmp, nat_list_eq_equiv, nat_list_cmp_total};
ghost use Rattle.std.specs.Cmp.Lexicographic.{texts_ties, texts_po};
ghost use Rattle.std.specs.Cmp;
ghost use Rattle.std.specs.Hash as fed;
ghost use Rattle.std.specs.Fmt.{debug_str};
ghost use Rattle.std.specs.Ordering.{nat_cmp};
ghost use Rattle.std.proofs.Common.{rules, refl};
ghost use Rattle.graphql_nodes.specs.NameSyntax.{IsName, IsNameStart, IsNameContinue};
ghost use Rattle.graphql_nodes.specs.NameRefusal.{IsNameRefusal};

pub mod seen_names;

use crate::collections::text::Text;
use crate::name_text::NameText;
use crate::source::SourceSpan;
use crate::take_apart;
use std::alloc::{AllocError, Global};
use std::cmp::Ordering;
use std::fmt;
use std::hash::{Hash, Hasher};
use std::marker::Model;
use std::rc::Rc;
use thiserror::Error;

/// A text that is no GraphQL name (section 2.1.9), and its location, if it is known.
///
/// Such errors are equal by their texts: the location is left out.
#[derive(Debug, Drop, Clone, Error)]
#[derive_where(PartialEq, Eq)]
#[error("`{name}` is not a valid GraphQL name")]
pub struct InvalidNameError {
    pub name: Text,
    #[derive_where(skip(EqHashOrd))]
    pub location: Option<SourceSpan>,
}

/// Why [`Name::new`] answers no name: `Invalid`, the text is none; `Memory`, out of memory, which says
/// nothing of the text.
#[derive(Debug, Drop, Error)]
pub enum NameError {
    #[error(transparent)]
    Invalid(InvalidNameError),
    #[error("out of memory")]
    Memory,
}

impl From<InvalidNameError> for NameError {
    ghost use Rattle.graphql_nodes.specs.declared.name.NameError.TheVariants.{Invalid};

    ghost from_gives = { λ refusal error. error ≡ Invalid refusal };

    /// `Invalid` of this refusal.
    fn from(refusal: InvalidNameError) -> NameError {
        NameError::Invalid(refusal)
    }
}

impl From<AllocError> for NameError {
    ghost use Rattle.graphql_nodes.specs.declared.name.NameError.TheVariants.{Memory};

    ghost from_gives = { λ _ error. error ≡ Memory };

    /// `Memory`.
    fn from(_: AllocError) -> NameError {
        NameError::Memory
    }
}

/// A GraphQL name (section 2.1.9), and its location, if it is known. Copies share the text, and have the
/// location.
///
/// Names are equal, and are ordered and hashed, by their texts: the location is left out. `Display` is the
/// text.
pub struct Name {
    shared: Rc<NameText>,
    location: Option<SourceSpan>,
}

impl Drop for Name {
    fn drop(self) {
        take_apart!(self: shared, location);
    }
}

/// A name that stands for a type.
pub type NamedType = Name;

impl Model for Name {
    ghost use Rattle.graphql_nodes.specs.NameTexts.{name_text};
    ghost use Rattle.graphql_nodes.specs.NameView.{NameView, name_view_code};

    ghost Value = { NameView };

    ghost coded = { name_view_code };

    ghost view = { λ n. record { text = name_text n.shared.value; location = n.location } };
}

fn is_name_start(byte: u8) -> bool
    ensures { IsTrue result ↔ IsNameStart byte }
{
    byte.is_ascii_alphabetic() || byte == b'_'
}

fn is_name_continue(byte: u8) -> bool
    ensures { IsTrue result ↔ IsNameContinue byte }
{
    is_name_start(byte) || byte.is_ascii_digit()
}

impl Name {
    /// A name with this text, and no location.
    ///
    /// A text that is no GraphQL name is refused with [`NameError::Invalid`], which carries it without a
    /// location. [`NameError::Memory`] is out of memory, and says nothing of the text.
    pub fn new(alloc: Global, text: &str) -> Result<Name, NameError>
        ensures ok { IfOk result (λ n. n ≡ record { text = text.now; location = None }) }
        ensures valid { OnOk result (IsName text.now) }
        ensures refused { IfErr result (IsNameRefusal text.now) }
    {
        if !Name::is_valid_syntax(text) {
            return Err(NameError::Invalid(InvalidNameError {
                name: Text::from_str(alloc, text)?,
                location: None,
            }));
        }
        Ok(Name::new_unchecked(alloc, text)?)
    }

    /// Whether the text is a GraphQL name (section 2.1.9): an ASCII letter or `_`, then any number of ASCII
    /// letters, digits and `_`.
    pub fn is_valid_syntax(text: &str) -> bool
        ensures { IsTrue result ↔ IsName text.now }
    {
        match text.as_bytes() {
            [] => false,
            [first, rest @ ..] => {
                is_name_start(*first) && rest.iter().all(|byte| is_name_continue(*byte))
            }
        }
    }

    /// A name with this text, whatever it is, and no location. The error is out of memory.
    pub fn new_unchecked(alloc: Global, text: &str) -> Result<Name, AllocError>
        ensures { IfOk result (λ n. n ≡ record { text = text.now; location = None }) }
    {
        Ok(Name {
            shared: Rc::new(alloc, NameText::from_str(alloc, text)?)?,
            location: None,
        })
    }

    /// The same name at this location.
    pub fn with_location(mut self, location: SourceSpan) -> Name
        ensures { result ≡ record self { location = Some location } }
    {
        self.location = Some(location);
        self
    }

    /// The text of the name.
    pub fn as_str(&self) -> &str
        ensures { result.now ≡ self.now.text }
    {
        self.shared.as_str()
    }

    /// Where the name stands in a source, if it is known.
    pub fn location(&self) -> Option<SourceSpan>
        ensures { result ≡ self.now.location }
    {
        self.location
    }
}

impl Clone for Name {
    ghost is_clone = { λ a b. b ≡ a };

    /// The same name, with its location. The error is out of memory.
    fn clone(&self) -> Result<Name, AllocError> {
        Ok(Name {
            shared: self.shared.clone()?,
            location: self.location,
        })
    }
}

impl PartialEq for Name {
    ghost eq = { λ x y. pointwise nat_eq x.text y.text };

    ghost laws = { on_per (λ x. x.text) (Cmp.partial_equiv_from_equiv nat_list_eq_equiv) };

    fn eq(&self, other: &Name) -> bool {
        self.as_str() == other.as_str()
    }
}

impl Eq for Name {
    ghost laws = { on_equiv (λ x. x.text) nat_list_eq_equiv };
}

impl PartialOrd for Name {
    ghost partial_cmp = { λ x y. Some (slice_cmp nat_cmp x.text y.text) };

    ghost laws = { on_po (λ x. x.text) texts_po };

    fn partial_cmp(&self, other: &Name) -> Option<Ordering> {
        Some(self.cmp(other))
    }
}

impl Ord for Name {
    ghost cmp = { λ x y. slice_cmp nat_cmp x.text y.text };

    ghost total = { on_total (λ x. x.text) nat_list_cmp_total };

    ghost matches_partial_cmp = { λ x y. refl };

    ghost matches_eq = { λ x y. texts_ties x.text y.text };

    fn cmp(&self, other: &Name) -> Ordering {
        self.as_str().cmp(other.as_str())
    }
}

impl Hash for Name {
    ghost hash_input = { λ n. fed.str n.text };

    ghost respects_eq = { Prim.search (hashing, rules) };

    fn hash<H: Hasher>(&self, state: &mut H) {
        self.as_str().hash(state)
    }
}

impl fmt::Display for Name {
    ghost output = { λ n. Some n.text };

    fn fmt<W: fmt::Write>(&self, f: &mut fmt::Formatter<W>) -> fmt::Result {
        fmt::Display::fmt(self.as_str(), f)
    }
}

impl fmt::Debug for Name {
    ghost debug_output = { λ n. debug_str n.text };

    fn fmt<W: fmt::Write>(&self, f: &mut fmt::Formatter<W>) -> fmt::Result {
        fmt::Debug::fmt(&self.as_str(), f)
    }
}
