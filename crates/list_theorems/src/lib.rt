// The third statement's line for the list in bulk, as hosts and `listing` ask for it. The function does nothing: its contract is the statement.
#![tactic(auto)]

ghost use Rattle.list_theorems.specs.Bulk.{BulkStatement};

pub fn bulk_statement()
    ensures { BulkStatement }
{}
