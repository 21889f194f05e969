//! A task over the files that its words name.
ghost use Rattle.std.specs.Prelude.{◌≡◌, ◌++◌, ℕ, List, IfOk, OnOk, string_bytes};
ghost use Rattle.std.specs.BTreeMap.{get_by_text};
ghost use Rattle.peglinden_words.specs.Requests.{asked_of, asked_of_task};
ghost use Rattle.peglinden_run.specs.Documents.{texts_of};
ghost use Rattle.peglinden_run.specs.Tasks.{AreTaskNames, IsNamedTask, file_words, notes_of, over_files};
ghost use Rattle.peglinden_run.specs.Tasks.{paths_of, refusal_of, repeated_line, repeated_text, schema_words};

use graphql_nodes::visible_text::visible;
use named_files::naming::{NamedFiles, named_files};
use named_files::refusal::Refusal;
use named_files::with_refusals::add_refusals;
use peglinden_words::request::{Request, Typing};
use peglinden_words::task::{Task, Writing};
use program_io::folders::Folders;
use std::alloc::{AllocError, Global};
use std::collections::BTreeMap;

/// The files that the words of a task name.
#[derive(Debug, Drop)]
pub struct TaskNames {
    /// Those of the schema, where the task has documents too.
    pub schema: NamedFiles,
    /// The others.
    pub files: NamedFiles,
}

/// A task over files, and what its words name besides.
#[derive(Debug, Drop)]
pub struct NamedTask<'n> {
    /// The task; its files are named by their paths.
    pub task: Task<'n>,
    /// Why names among these paths stand for no file.
    pub refused: BTreeMap<String, Refusal>,
    /// What standard error says first: which files are named again.
    pub notes: String,
}

/// The files that the words of a task name. The error is out of memory.
pub(crate) fn task_names<F: Folders>(
    alloc: Global,
    folders: &F,
    task: &Task<'_>,
) -> Result<TaskNames, AllocError>
    ensures { IfOk result
        (AreTaskNames (F.stands folders.now) (F.lists folders.now) (F.may_hide folders.now)
        (asked_of_task task.now)) }
{
    Ok(TaskNames {
        schema: named_files(alloc, folders, schema_words(task))?,
        files: named_files(alloc, folders, file_words(task))?,
    })
}

/// The words that name files of a schema, where documents are named too.
fn schema_words<'t, 'w>(task: &'t Task<'w>) -> &'t [&'w str]
    ensures { texts_of result.now ≡ schema_words (asked_of_task task.entry.now) }
{
    match task {
        Task::Answer(Request::Check(typing) | Request::Typed(typing) | Request::Fields(typing)) => {
            typing.schema.as_slice()
        }
        _ => &[],
    }
}

/// The other words that name files.
fn file_words<'t, 'w>(task: &'t Task<'w>) -> &'t [&'w str]
    ensures { texts_of result.now ≡ file_words (asked_of_task task.entry.now) }
{
    match task {
        Task::Answer(request) => request_words(request),
        Task::Write(writing) => writing.files.as_slice(),
    }
}

/// The same of a request.
fn request_words<'t, 'w>(request: &'t Request<'w>) -> &'t [&'w str]
    ensures { texts_of result.now ≡ file_words (asked_of request.entry.now) }
{
    match request {
        Request::Schema { files, .. }
        | Request::Lookup { files, .. }
        | Request::Format { files, .. } => files.as_slice(),
        Request::Check(typing) | Request::Typed(typing) | Request::Fields(typing) => {
            typing.documents.as_slice()
        }
    }
}

/// The task over the files that are named. The error is out of memory.
pub(crate) fn named_task<'n>(
    alloc: Global,
    task: &'n Task<'n>,
    names: &'n TaskNames,
) -> Result<NamedTask<'n>, AllocError>
    ensures { IfOk result (IsNamedTask (asked_of_task task.entry.now) names.entry.now) }
{
    let over = over_names(alloc, task, names)?;
    let refused = refusals(alloc, names)?;
    let notes = notes(alloc, names)?;
    Ok(NamedTask {
        task: over,
        refused,
        notes,
    })
}

/// The task itself. The error is out of memory.
fn over_names<'n>(
    alloc: Global,
    task: &'n Task<'n>,
    names: &'n TaskNames,
) -> Result<Task<'n>, AllocError>
    ensures { IfOk result (λ over. asked_of_task over
        ≡ over_files (asked_of_task task.entry.now) (paths_of names.entry.now.schema)
        (paths_of names.entry.now.files)) }
{
    match task {
        Task::Answer(request) => Ok(Task::Answer(request_over(alloc, request, names)?)),
        Task::Write(writing) => Ok(Task::Write(Writing {
            check: writing.check,
            drop_comments: writing.drop_comments,
            reporting: writing.reporting,
            files: paths(alloc, &names.files)?,
        })),
    }
}

/// A request over the files that are named. The error is out of memory.
fn request_over<'n>(
    alloc: Global,
    request: &'n Request<'n>,
    names: &'n TaskNames,
) -> Result<Request<'n>, AllocError>
    ensures { IfOk result (λ over. asked_of over
        ≡ over_files (asked_of request.entry.now) (paths_of names.entry.now.schema)
        (paths_of names.entry.now.files)) }
{
    match request {
        Request::Schema {
            adopt,
            ignore_builtin,
            reporting,
            files: _,
        } => Ok(Request::Schema {
            adopt: *adopt,
            ignore_builtin: *ignore_builtin,
            reporting: *reporting,
            files: paths(alloc, &names.files)?,
        }),
        Request::Check(typing) => Ok(Request::Check(typing_over(alloc, typing, names)?)),
        Request::Typed(typing) => Ok(Request::Typed(typing_over(alloc, typing, names)?)),
        Request::Fields(typing) => Ok(Request::Fields(typing_over(alloc, typing, names)?)),
        Request::Lookup {
            coordinate,
            reporting,
            files: _,
        } => Ok(Request::Lookup {
            coordinate,
            reporting: *reporting,
            files: paths(alloc, &names.files)?,
        }),
        Request::Format {
            check,
            reporting,
            files: _,
        } => Ok(Request::Format {
            check: *check,
            reporting: *reporting,
            files: paths(alloc, &names.files)?,
        }),
    }
}

/// The files that are named, to be typed. The error is out of memory.
fn typing_over<'n>(
    alloc: Global,
    typing: &Typing<'n>,
    names: &'n TaskNames,
) -> Result<Typing<'n>, AllocError>
    ensures reporting { IfOk result (λ over. over.reporting ≡ typing.now.reporting) }
    ensures schema { IfOk result (λ over. texts_of over.schema.items ≡ paths_of names.entry.now.schema) }
    ensures documents { IfOk result (λ over. texts_of over.documents.items ≡ paths_of names.entry.now.files) }
{
    Ok(Typing {
        reporting: typing.reporting,
        schema: paths(alloc, &names.schema)?,
        documents: paths(alloc, &names.files)?,
    })
}

/// The paths of what is named. The error is out of memory.
fn paths<'n>(alloc: Global, named: &'n NamedFiles) -> Result<Vec<&'n str>, AllocError>
    ensures { IfOk result (λ paths. texts_of paths.items ≡ paths_of named.entry.now) }
{
    let mut paths = Vec::new(alloc);
    for one in &named.named {
        paths.push(one.path.as_str())?;
    }
    Ok(paths)
}

/// Why names stand for no file, by their paths. The error is out of memory.
fn refusals(alloc: Global, names: &TaskNames) -> Result<BTreeMap<String, Refusal>, AllocError>
    ensures { IfOk result (λ refused.
        (path : List ℕ) → get_by_text refused path ≡ refusal_of names.now path) }
{
    let mut refused = BTreeMap::new(alloc);
    add_refusals(&mut refused, names.schema.named.as_slice())?;
    add_refusals(&mut refused, names.files.named.as_slice())?;
    Ok(refused)
}

/// What standard error says of all that is named again. The error is out of memory.
fn notes(alloc: Global, names: &TaskNames) -> Result<String, AllocError>
    ensures { IfOk result (λ text. string_bytes text ≡ notes_of names.now) }
{
    let mut text = String::new(alloc);
    push_repeated(alloc, &mut text, names.schema.repeated.as_slice())?;
    push_repeated(alloc, &mut text, names.files.repeated.as_slice())?;
    Ok(text)
}

/// Adds what it says of these paths. The error is out of memory.
fn push_repeated(alloc: Global, text: &mut String, paths: &[String]) -> Result<(), AllocError>
    ensures { OnOk result (string_bytes text.new ≡ string_bytes text.old ++ repeated_text paths.now) }
{
    for path in paths {
        let line = repeated_line(alloc, path.as_str())?;
        text.push_str(line.as_str())?;
    }
    Ok(())
}

/// What standard error says of a path that is named again. The error is out of memory.
fn repeated_line(alloc: Global, path: &str) -> Result<String, AllocError>
    ensures { IfOk result (λ line. string_bytes line ≡ repeated_line path.now) }
{
    format!(in alloc;
        "warning: `{}` is named more than once, and read once\n",
        visible(path)
    )
}
