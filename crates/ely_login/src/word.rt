//! The steps of logins and edits, the states of a login, and what a cache had to do with a naming.

/// The word of a step.
#[derive(Clone, Copy, Debug, PartialEq, Eq)]
pub enum StepWord {
    BadLine,
    Add,
    Remove,
    SetCred,
    DropCred,
    SetAttr,
    DropAttr,
    Reload,
    Begin,
    Name1,
    Name2,
    Check1,
    Check2,
    Authorize,
    Allows,
    Succeed,
    Fail,
    Close,
}

/// The state of a login.
#[derive(Clone, Copy, Debug, PartialEq, Eq)]
pub enum StateWord {
    Absent,
    Fresh,
    Loading,
    Named,
    Checking,
    Proved,
    Authorized,
    Complete,
    Failed,
}

/// What a cache had to do with a naming. `None` is no word.
#[derive(Clone, Copy, Debug, PartialEq, Eq)]
pub enum CacheWord {
    None,
    Dash,
    Hit,
    Miss,
    Kept,
    Late,
    Unkept,
}
