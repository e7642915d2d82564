// The walk and the record check agree on every record.
#![tactic(auto)]
