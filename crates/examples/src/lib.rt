// Theorems alone: worked examples of documents 01 and 02, by evaluation of the definitions.

#![tactic(auto)]
