// The locks that a command takes on files and links.
ghost use Rattle.std.specs.Prelude.{◌≡◌, ◌<◌, ◌+◌, length};
ghost use Rattle.gx_schema.specs.Lookups.{link_at};
ghost use Rattle.gx_commands.specs.Commands.{IsOfSchema, IsFindOf};
ghost use Rattle.gx_sharing.specs.Locks.{file, link, exclusive_if, shared_if, is_end_file, find_lock, stronger, conflict, is_exclusive, lock_of};
ghost use Rattle.gx_sessions.specs.Places.{mode_of, item_at};

use gx_commands::{Command, Find};
use gx_schema::{LinkDef, Schema};

/// A lock on a file or a link.
#[derive(Clone, Copy, Debug)]
pub(crate) enum Lock {
    /// There is none.
    Free,
    /// Others may read.
    Shared,
    /// No other may read or write.
    Exclusive,
}

impl Lock {
    fn exclusive_if(wanted: bool) -> Lock
        ensures { mode_of result ≡ exclusive_if wanted }
    {
        if wanted { Lock::Exclusive } else { Lock::Free }
    }

    fn shared_if(wanted: bool) -> Lock
        ensures { mode_of result ≡ shared_if wanted }
    {
        if wanted { Lock::Shared } else { Lock::Free }
    }

    /// The stronger of two.
    pub(crate) fn stronger(self, other: Lock) -> Lock
        ensures { mode_of result ≡ stronger (mode_of self) (mode_of other) }
    {
        match (self, other) {
            (Lock::Exclusive, _) | (_, Lock::Exclusive) => Lock::Exclusive,
            (Lock::Shared, _) | (_, Lock::Shared) => Lock::Shared,
            (Lock::Free, Lock::Free) => Lock::Free,
        }
    }

    /// Whether it conflicts with one that another session wants.
    pub(crate) fn conflicts(self, wanted: Lock) -> bool
        ensures { result ≡ conflict (mode_of self) (mode_of wanted) }
    {
        match (self, wanted) {
            (Lock::Free, _) | (_, Lock::Free) | (Lock::Shared, Lock::Shared) => false,
            (Lock::Exclusive, _) | (_, Lock::Exclusive) => true,
        }
    }
}

/// How many files and links a schema has.
pub(crate) fn places(schema: &Schema) -> usize
    ensures { result ≡ length schema.now.files + length schema.now.links }
{
    schema.files.0.len() + schema.links.0.len()
}

/// The lock that a command takes on the file or the link at a place: the files stand first, and
/// then the links.
pub(crate) fn lock_at(schema: &Schema, command: &Command, place: usize) -> Lock
    requires of_schema { IsOfSchema schema.now command.now }
    requires place { place < length schema.now.files + length schema.now.links }
    ensures { mode_of result ≡ lock_of schema.now command.now (item_at schema.now place) }
{
    let files = schema.files.0.len();
    if place < files {
        file_lock(schema, command, place)
    } else {
        link_lock(schema, command, place - files)
    }
}

fn file_lock(schema: &Schema, command: &Command, number: usize) -> Lock
    requires of_schema { IsOfSchema schema.now command.now }
    ensures { mode_of result ≡ lock_of schema.now command.now (file number) }
{
    match command {
        Command::Insert(file, _) => Lock::exclusive_if(usize::from(*file) == number),
        Command::Update(file, _, _) => Lock::exclusive_if(usize::from(*file) == number),
        Command::Delete(file, _) => Lock::exclusive_if(usize::from(*file) == number),
        Command::Get(file, _) => Lock::shared_if(usize::from(*file) == number),
        Command::Connect(link, _, _) => Lock::shared_if(is_end(link_def(schema, *link), number)),
        Command::Members(link, _, _) => Lock::shared_if(is_end(link_def(schema, *link), number)),
        Command::Owner(link, _) => Lock::shared_if(is_end(link_def(schema, *link), number)),
        Command::Disconnect(link, _) => {
            Lock::shared_if(usize::from(link_def(schema, *link).member) == number)
        }
        Command::Find(find) => find_file_lock(schema, find, number),
        Command::Begin
        | Command::Commit
        | Command::Abort
        | Command::ReorganizeFile(_)
        | Command::ReorganizeLink(_)
        | Command::Nothing => Lock::Free,
    }
}

fn link_lock(schema: &Schema, command: &Command, number: usize) -> Lock
    requires of_schema { IsOfSchema schema.now command.now }
    requires number { number < length schema.now.links }
    ensures { mode_of result ≡ lock_of schema.now command.now (link number) }
{
    match command {
        Command::Delete(file, _) => {
            Lock::shared_if(is_end(&schema.links.0[number], usize::from(*file)))
        }
        Command::Connect(link, _, _) => Lock::exclusive_if(usize::from(*link) == number),
        Command::Disconnect(link, _) => Lock::exclusive_if(usize::from(*link) == number),
        Command::Members(link, _, _) => Lock::shared_if(usize::from(*link) == number),
        Command::Owner(link, _) => Lock::shared_if(usize::from(*link) == number),
        Command::Find(find) => find_link_lock(find, number),
        Command::Begin
        | Command::Commit
        | Command::Abort
        | Command::Insert(_, _)
        | Command::Get(_, _)
        | Command::Update(_, _, _)
        | Command::ReorganizeFile(_)
        | Command::ReorganizeLink(_)
        | Command::Nothing => Lock::Free,
    }
}

fn find_file_lock(schema: &Schema, find: &Find, number: usize) -> Lock
    requires { IsFindOf schema.now find.now }
    ensures { mode_of result ≡ find_lock schema.now find.now.file find.now.of (file number) }
{
    let found = usize::from(find.file) == number;
    match &find.of {
        None => Lock::shared_if(found),
        Some(of) => {
            let owner = usize::from(link_def(schema, of.link).owner) == number;
            Lock::shared_if(found || owner)
        }
    }
}

fn find_link_lock(find: &Find, number: usize) -> Lock
    ensures { (schema : Schema) → mode_of result ≡ find_lock schema find.now.file find.now.of
        (link number) }
{
    match &find.of {
        None => Lock::Free,
        Some(of) => Lock::shared_if(usize::from(of.link) == number),
    }
}

// The schema's link with this number, counted from 0.
fn link_def(schema: &Schema, number: u16) -> &LinkDef
    requires { number < length schema.now.links }
    ensures { result.now ≡ link_at schema.now number }
{
    &schema.links.0[usize::from(number)]
}

// Whether the file is an end of the link.
fn is_end(link: &LinkDef, file: usize) -> bool
    ensures { result ≡ is_end_file link.now file }
{
    usize::from(link.owner) == file || usize::from(link.member) == file
}
