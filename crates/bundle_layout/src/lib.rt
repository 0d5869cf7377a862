// The layout of a bundle is definitions and their laws alone: crates that read and write bundles have the code.

#![tactic(auto)]
