// 01's worked cases of pages, chunks, windows, pointers and bounds as one table: specs/. There is no code here; the rows are of the definitions that the contracts cite.
#![tactic(auto)]
