//! The law of canonical forms. Its function computes nothing.

ghost use Rattle.fr_ray.specs.Laws.{RaysHaveForms};

/// Each ray has a canonical form. That it has one alone is a law of `fr_model`.
pub fn rays_have_forms()
    ensures { RaysHaveForms }
{}
