//! The stages of a run, and what a run promises: only definitions, on which the laws about them and the code of a run depend.
//!
//! A stage is what is left to do: some acts, followed by either a work that begins with a load, or a status. The next act is a
//! function of the stage. The stage it leads to is given by a relation on the bytes stored under names, so a run that breaks
//! off promises nothing about what it never loaded.
//!
//! `--sp-file p k.c` begins with the load of `p`. If that is a patch, the file `k.c` is loaded, and its text under the patch is
//! printed.
//!
//! There is no code here: run_laws has the laws, and spatch_run has the run.
#![tactic(auto)]
