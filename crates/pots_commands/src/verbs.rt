//! The commands, each read once from the first word.

/// A command.
#[derive(Clone, Copy, Debug, PartialEq, Eq)]
pub enum Verb {
    Init,
    Store,
    Fetch,
    List,
    Status,
    Check,
    Repair,
    Replace,
    Migrate,
    Renew,
    Place,
    BackupDesk,
    Recover,
    RecoverDesk,
    Audit,
    Drill,
    Cat,
    Completion,
    Diff,
    Evacuate,
    Find,
    Picture,
    Racks,
    RestoreDesk,
    Sheet,
    Verify,
}

impl Verb {
    /// The command of this name.
    pub fn of(name: &str) -> Option<Verb> {
        match name {
            "init" => Some(Verb::Init),
            "store" => Some(Verb::Store),
            "fetch" => Some(Verb::Fetch),
            "list" => Some(Verb::List),
            "status" => Some(Verb::Status),
            "check" => Some(Verb::Check),
            "repair" => Some(Verb::Repair),
            "replace" => Some(Verb::Replace),
            "migrate" => Some(Verb::Migrate),
            "renew" => Some(Verb::Renew),
            "place" => Some(Verb::Place),
            "evacuate" => Some(Verb::Evacuate),
            "backup-desk" => Some(Verb::BackupDesk),
            "recover" => Some(Verb::Recover),
            "recover-desk" => Some(Verb::RecoverDesk),
            "audit" => Some(Verb::Audit),
            "drill" => Some(Verb::Drill),
            "cat" => Some(Verb::Cat),
            "find" => Some(Verb::Find),
            "diff" => Some(Verb::Diff),
            "verify" => Some(Verb::Verify),
            "restore-desk" => Some(Verb::RestoreDesk),
            "sheet" => Some(Verb::Sheet),
            "picture" => Some(Verb::Picture),
            "racks" => Some(Verb::Racks),
            "completion" => Some(Verb::Completion),
            _ => None,
        }
    }
}
