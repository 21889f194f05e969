//! One line of the notation.
ghost use Rattle.std.specs.Prelude.{◌≡◌, [], ◌∷◌, codes, true, false, IfErr, IfOk};
ghost use Rattle.graphql_nodes.specs.NameView.{NameView};
ghost use Rattle.graphql_ast.specs.declared.type_reference.Type.{«Type» as TypeReference};
ghost use Rattle.graphql_nodes.specs.LocationTexts.{location_text};
ghost use Rattle.graphql_nodes.specs.OperationTexts.{operation_text};
ghost use Rattle.bench_notation.specs.HeaderWords.{role_word};
ghost use Rattle.bench_notation.specs.Line.{SayLine, Says, SaysHeader, SaysComponent, AreName};
ghost use Rattle.bench_notation.specs.Line.{AreNameAndType, AreRoot, texts_of, words_of};
ghost use Rattle.bench_notation.specs.Places.{stands, StandsBelow};
ghost use Rattle.bench_notation.specs.Refusals.{SayNoComponent, SayNoLine, SaysNothing, WhenRefused};

use crate::above::{Above, Position};
use crate::executable_header::ExecutableHeader;
use crate::executable_line::{fragment_names, operation_and_its_name, selection};
use crate::kind_words::{Role, kind_of_word, operation_of_word};
use crate::name_words::only_name;
use crate::names::Names;
use crate::refusal::{LineError, Reason};
use crate::selection_line::Selected;
use crate::type_notation::{MOST_BRACKETS, read_type};
use graphql_ast::type_reference::Type;
use graphql_nodes::directive_location::DirectiveLocation;
use graphql_nodes::name::{Name, NamedType};
use graphql_nodes::operation_type::OperationType;
use graphql_nodes::source::SourceSpan;
use graphql_nodes::type_kind::TypeKind;

/// A header line, which begins a definition or an extension.
#[derive(Drop)]
pub enum Header {
    /// `def KIND NAME` or `ext KIND NAME`
    Type(Role, TypeKind, Name),
    /// `directive NAME`
    Directive(Name),
    /// `schema` or `ext-schema`
    Schema(Role),
    Executable(ExecutableHeader),
}

/// A line that belongs to the header line above it, or to a field of that header.
#[derive(Drop)]
pub enum Component {
    /// `@ NAME`
    Directive(Name),
    /// `implements NAME`
    Implements(Name),
    /// `field NAME TYPE`
    Field(Name, Type),
    /// `field@ NAME`
    FieldDirective(Name),
    /// `arg NAME TYPE`
    Argument(Name, Type),
    /// `member NAME`
    Member(Name),
    /// `value NAME`
    Value(Name),
    /// `on LOCATION`
    On(DirectiveLocation),
    /// `repeatable`
    Repeatable,
    /// `root OPERATION NAME`
    Root(OperationType, NamedType),
    /// `sel DEPTH field NAME`, with an alias behind it or not; `sel DEPTH spread NAME`; `sel DEPTH inline`,
    /// with a type condition behind it or not
    Selection(u8, Selected),
}

/// What a line says.
#[derive(Drop)]
pub enum Line {
    Empty,
    /// `---`, which ends a document and begins the next
    Break,
    /// `===`, which does so too, and divides the documents before it from those behind it
    Division,
    Header(Header),
    Component(Component),
}

/// Reads a line of these words, which stands at this position. Its names get this location.
///
/// [`Refused`](LineError::Refused) comes only where the line says nothing that may stand there; `Memory` is
/// out of memory, and says nothing of the line.
pub(crate) fn read_line(
    names: &mut Names,
    text: &str,
    words: &[&str],
    position: Position,
    location: SourceSpan,
) -> Result<Line, LineError>
    requires { texts_of words.now ≡ words_of text.now }
    ensures says { IfOk result (Says location text.now) }
    ensures stands { IfOk result (StandsBelow position) }
    ensures refused { IfErr result (WhenRefused (SaysNothing position location text.now)) }
{
    if text.is_empty() {
        return Ok(Line::Empty);
    }
    read_words(names, words, position, location)
}

/// The words of a line that is not empty.
fn read_words(
    names: &mut Names,
    words: &[&str],
    position: Position,
    location: SourceSpan,
) -> Result<Line, LineError>
    ensures says { IfOk result (SayLine location (texts_of words.now)) }
    ensures stands { IfOk result (StandsBelow position) }
    ensures refused { IfErr result (WhenRefused (SayNoLine position location (texts_of words.now))) }
{
    let Some((first, rest)) = words.split_first() else {
        return Err(LineError::Refused(Reason::UnknownLine));
    };
    match *first {
        "---" => {
            end_of_words(rest)?;
            Ok(Line::Break)
        }
        "===" => {
            allow(position.may_divide)?;
            end_of_words(rest)?;
            Ok(Line::Division)
        }
        "def" => Ok(Line::Header(read_type_header(names, Role::Definition, rest, location)?)),
        "ext" => Ok(Line::Header(read_type_header(names, Role::Extension, rest, location)?)),
        "directive" => Ok(Line::Header(Header::Directive(only_name(names, rest, location)?))),
        "schema" => {
            end_of_words(rest)?;
            Ok(Line::Header(Header::Schema(Role::Definition)))
        }
        "ext-schema" => {
            end_of_words(rest)?;
            Ok(Line::Header(Header::Schema(Role::Extension)))
        }
        "operation" => {
            let (operation, name) = operation_and_its_name(names, rest, location)?;
            Ok(Line::Header(Header::Executable(ExecutableHeader::Operation(operation, name))))
        }
        "fragment" => {
            let (name, condition) = fragment_names(names, rest, location)?;
            Ok(Line::Header(Header::Executable(ExecutableHeader::Fragment(name, condition))))
        }
        word => {
            let component = read_component(names, word, rest, position.above, location)?;
            Ok(Line::Component(component))
        }
    }
}

/// A component line, by its first word and the rest of its words.
fn read_component(
    names: &mut Names,
    first: &str,
    rest: &[&str],
    above: Above,
    location: SourceSpan,
) -> Result<Component, LineError>
    ensures says { IfOk result (SaysComponent location (first.now ∷ texts_of rest.now)) }
    ensures stands { IfOk result (λ component. stands above component ≡ true) }
    ensures refused { IfErr result
        (WhenRefused (SayNoComponent above location (first.now ∷ texts_of rest.now))) }
{
    match first {
        "@" => {
            let name = allowed_name(names, above.takes_directives(), rest, location)?;
            Ok(Component::Directive(name))
        }
        "implements" => {
            let name = allowed_name(names, above.is_object_or_interface(), rest, location)?;
            Ok(Component::Implements(name))
        }
        "field" => {
            let (name, ty) = name_and_type(names, above.has_fields(), rest, location)?;
            Ok(Component::Field(name, ty))
        }
        "field@" => {
            let name = allowed_name(names, above.is_field(), rest, location)?;
            Ok(Component::FieldDirective(name))
        }
        "arg" => {
            let (name, ty) = name_and_type(names, above.takes_arguments(), rest, location)?;
            Ok(Component::Argument(name, ty))
        }
        "member" => {
            let name = allowed_name(names, above.is_union(), rest, location)?;
            Ok(Component::Member(name))
        }
        "value" => {
            let name = allowed_name(names, above.is_enum(), rest, location)?;
            Ok(Component::Value(name))
        }
        "on" => {
            allow(above.is_directive())?;
            Ok(Component::On(only_location(rest)?))
        }
        "repeatable" => {
            allow(above.is_directive())?;
            end_of_words(rest)?;
            Ok(Component::Repeatable)
        }
        "root" => {
            let (operation, name) = operation_and_name(names, above.is_schema(), rest, location)?;
            Ok(Component::Root(operation, name))
        }
        "sel" => {
            let (depth, selected) = selection(names, above, rest, location)?;
            Ok(Component::Selection(depth, selected))
        }
        _ => Err(LineError::Refused(Reason::UnknownLine)),
    }
}

/// Refuses a line that may not stand where it does.
fn allow(is_allowed: bool) -> Result<(), Reason>
    ensures ok { IfOk result (λ _. is_allowed ≡ true) }
    ensures err { IfErr result (λ _. is_allowed ≡ false) }
{
    if is_allowed {
        Ok(())
    } else {
        Err(Reason::MisplacedLine)
    }
}

fn end_of_words(words: &[&str]) -> Result<(), Reason>
    ensures ok { IfOk result (λ _. texts_of words.now ≡ []) }
    ensures err { IfErr result (λ _. ¬ (texts_of words.now ≡ [])) }
{
    match words {
        [] => Ok(()),
        _ => Err(Reason::WrongNumberOfWords),
    }
}

/// The words that follow `def` or `ext`.
fn read_type_header(
    names: &mut Names,
    role: Role,
    words: &[&str],
    location: SourceSpan,
) -> Result<Header, LineError>
    ensures says { IfOk result (SaysHeader location (role_word role ∷ texts_of words.now)) }
    ensures refused { IfErr result (WhenRefused ((header : Header)
        → ¬ SaysHeader location (role_word role ∷ texts_of words.now) header)) }
{
    let [kind, name] = words else {
        return Err(LineError::Refused(Reason::WrongNumberOfWords));
    };
    let Some(kind) = kind_of_word(*kind) else {
        return Err(LineError::Refused(Reason::BadWord));
    };
    Ok(Header::Type(role, kind, names.read(*name, location)?))
}

/// The only word that follows, a name, on a line that is allowed here or not.
fn allowed_name(
    names: &mut Names,
    is_allowed: bool,
    words: &[&str],
    location: SourceSpan,
) -> Result<Name, LineError>
    ensures allowed { IfOk result (λ _. is_allowed ≡ true) }
    ensures says { IfOk result (AreName location (texts_of words.now)) }
    ensures refused { IfErr result (WhenRefused ((name : NameView)
        → AreName location (texts_of words.now) name → ¬ (is_allowed ≡ true))) }
{
    allow(is_allowed)?;
    only_name(names, words, location)
}

/// The two words that follow, a name and a type, on a line that is allowed here or not.
fn name_and_type(
    names: &mut Names,
    is_allowed: bool,
    words: &[&str],
    location: SourceSpan,
) -> Result<(Name, Type), LineError>
    ensures allowed { IfOk result (λ _. is_allowed ≡ true) }
    ensures says { IfOk result (λ both. AreNameAndType location (texts_of words.now) both.0 both.1) }
    ensures refused { IfErr result (WhenRefused ((name : NameView) (ty : TypeReference)
        → AreNameAndType location (texts_of words.now) name ty → ¬ (is_allowed ≡ true))) }
{
    allow(is_allowed)?;
    let [name, ty] = words else {
        return Err(LineError::Refused(Reason::WrongNumberOfWords));
    };
    let name = names.read(*name, location)?;
    let ty = read_type(names, *ty, MOST_BRACKETS, location)?;
    Ok((name, ty))
}

fn only_location(words: &[&str]) -> Result<DirectiveLocation, Reason>
    ensures ok { IfOk result (λ location. texts_of words.now ≡ location_text location ∷ []) }
    ensures err { IfErr result (λ _. (location : DirectiveLocation)
        → ¬ (texts_of words.now ≡ location_text location ∷ [])) }
{
    let [word] = words else {
        return Err(Reason::WrongNumberOfWords);
    };
    match DirectiveLocation::from_name(*word) {
        Some(location) => Ok(location),
        None => Err(Reason::BadWord),
    }
}

/// The two words that follow, a kind of operation and a name, on a line that is allowed here or not.
fn operation_and_name(
    names: &mut Names,
    is_allowed: bool,
    words: &[&str],
    location: SourceSpan,
) -> Result<(OperationType, NamedType), LineError>
    ensures allowed { IfOk result (λ _. is_allowed ≡ true) }
    ensures says { IfOk result (λ both. AreRoot location (texts_of words.now) both.0 both.1) }
    ensures refused { IfErr result (WhenRefused ((operation : OperationType) (name : NameView)
        → AreRoot location (texts_of words.now) operation name → ¬ (is_allowed ≡ true))) }
{
    allow(is_allowed)?;
    let [operation, name] = words else {
        return Err(LineError::Refused(Reason::WrongNumberOfWords));
    };
    let Some(operation) = operation_of_word(*operation) else {
        return Err(LineError::Refused(Reason::BadWord));
    };
    Ok((operation, names.read(*name, location)?))
}
