// Copies of commands.
ghost use Rattle.std.specs.Prelude.{◌≡◌, IfOk};

use crate::command::{Change, Changes, Command, Cond, Conds, Find, Of};
use gx_values::NoMemory;
use std::alloc::Global;

impl Cond {
    fn copy(&self, alloc: Global) -> Result<Cond, NoMemory>
        ensures { IfOk result (λ copy. copy ≡ self.now) }
    {
        Ok(Cond {
            field: self.field,
            op: self.op,
            bound: self.bound.copy(alloc)?,
        })
    }
}

impl Conds {
    fn copy(&self, alloc: Global) -> Result<Conds, NoMemory>
        ensures { IfOk result (λ copy. copy ≡ self.now) }
    {
        let mut copies = Vec::with_capacity(alloc, self.0.len())?;
        for cond in self.0.iter() {
            copies.push(cond.copy(alloc)?)?;
        }
        Ok(Conds(copies))
    }
}

impl Change {
    fn copy(&self, alloc: Global) -> Result<Change, NoMemory>
        ensures { IfOk result (λ copy. copy ≡ self.now) }
    {
        Ok(Change {
            field: self.field,
            value: self.value.copy(alloc)?,
        })
    }
}

impl Changes {
    fn copy(&self, alloc: Global) -> Result<Changes, NoMemory>
        ensures { IfOk result (λ copy. copy ≡ self.now) }
    {
        let mut copies = Vec::with_capacity(alloc, self.0.len())?;
        for change in self.0.iter() {
            copies.push(change.copy(alloc)?)?;
        }
        Ok(Changes(copies))
    }
}

impl Of {
    fn copy(&self, alloc: Global) -> Result<Of, NoMemory>
        ensures { IfOk result (λ copy. copy ≡ self.now) }
    {
        Ok(Of {
            link: self.link,
            owner: self.owner.copy(alloc)?,
        })
    }
}

// The same owner in a link, where one is asked for.
fn copy_of(alloc: Global, of: &Option<Of>) -> Result<Option<Of>, NoMemory>
    ensures { IfOk result (λ copy. copy ≡ of.now) }
{
    match of {
        None => Ok(None),
        Some(of) => Ok(Some(of.copy(alloc)?)),
    }
}

impl Find {
    fn copy(&self, alloc: Global) -> Result<Find, NoMemory>
        ensures { IfOk result (λ copy. copy ≡ self.now) }
    {
        Ok(Find {
            file: self.file,
            conds: self.conds.copy(alloc)?,
            of: copy_of(alloc, &self.of)?,
            order: self.order,
        })
    }
}

impl Command {
    /// An equal command. `NoMemory`: there was none for what it holds.
    pub fn copy(&self, alloc: Global) -> Result<Command, NoMemory>
        ensures { IfOk result (λ copy. copy ≡ self.now) }
    {
        Ok(match self {
            Command::Begin => Command::Begin,
            Command::Commit => Command::Commit,
            Command::Abort => Command::Abort,
            Command::Insert(file, values) => Command::Insert(*file, values.copy(alloc)?),
            Command::Get(file, key) => Command::Get(*file, key.copy(alloc)?),
            Command::Update(file, key, changes) => {
                Command::Update(*file, key.copy(alloc)?, changes.copy(alloc)?)
            }
            Command::Delete(file, key) => Command::Delete(*file, key.copy(alloc)?),
            Command::Connect(link, owner, member) => {
                Command::Connect(*link, owner.copy(alloc)?, member.copy(alloc)?)
            }
            Command::Disconnect(link, member) => Command::Disconnect(*link, member.copy(alloc)?),
            Command::Members(link, owner, order) => {
                Command::Members(*link, owner.copy(alloc)?, *order)
            }
            Command::Owner(link, member) => Command::Owner(*link, member.copy(alloc)?),
            Command::Find(find) => Command::Find(find.copy(alloc)?),
            Command::ReorganizeFile(file) => Command::ReorganizeFile(*file),
            Command::ReorganizeLink(link) => Command::ReorganizeLink(*link),
            Command::Nothing => Command::Nothing,
        })
    }
}
