// The engine with the index keeps its promises. The functions do nothing: a contract is the statement, so that no check passes without the proof.
#![tactic(auto)]

ghost use Rattle.index_theorems.specs.Statement.{IndexStatement, IndexedThird, IndexedStays};

// After any list of feeds with the index it is the one worked out afresh, and all else is as without it.
pub fn index_statement()
    ensures { IndexStatement }
{}

// The third statement.
pub fn third_statement_indexed()
    ensures { IndexedThird }
{}

// What is final stays final.
pub fn stays_final_indexed()
    ensures { IndexedStays }
{}
