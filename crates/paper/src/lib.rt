// The cases that document 01 marks M and those of requests One and Two, in one table (specs/Table.antt), proved as one statement
// (proofs/Cases.antt); beside them the error that document 01 counts in SELECTs (specs/Errors.antt). They speak of the definitions that
// the calls' contracts cite, so there is no code here.
#![tactic(auto)]
