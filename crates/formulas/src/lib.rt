// What the six functions compute, as definitions in specs/, and what is true of them.
#![tactic(auto)]

ghost use Rattle.std.specs.Prelude.{◌≡◌};
ghost use Rattle.formulas.specs.Tried.{Tried};
ghost use Rattle.formulas.specs.Polynomials.{SineSeries, CosineSeries, TangentSeries, HalfSineSeries, HalfCosineSeries, QuarterSineSeries, QuarterCosineSeries};
ghost use Rattle.formulas.specs.Distance.{RadianSine, RadianCosine, HalfTurnSine, HalfTurnCosine, NotFinite};
ghost use Rattle.formulas.specs.Tangent.{RadianTangent, HalfTurnTangent, TangentsNotFinite};

// How many values stand in the table of tried ones.
pub fn tried_values() -> u8
    ensures count { result ≡ 11 }
    ensures right { Tried }
{
    11
}

// The polynomials of the six functions are near the series on the whole of their intervals.
pub fn polynomials()
    ensures sine { SineSeries }
    ensures cosine { CosineSeries }
    ensures tangent { TangentSeries }
    ensures half_sine { HalfSineSeries }
    ensures half_cosine { HalfCosineSeries }
    ensures quarter_sine { QuarterSineSeries }
    ensures quarter_cosine { QuarterCosineSeries }
{}

// The sines and cosines, at every word, are within half a spacing and 2^-36 of the exact ones.
pub fn sine_distances()
    ensures radian_sine { RadianSine }
    ensures radian_cosine { RadianCosine }
    ensures half_turn_sine { HalfTurnSine }
    ensures half_turn_cosine { HalfTurnCosine }
    ensures not_finite { NotFinite }
{}

// The tangents, at every word: times the exact cosine within 2^-23 and a 2^-35 part of the answer of the exact sine;
// infinite at halves of half turns alone.
pub fn tangent_distances()
    ensures radian { RadianTangent }
    ensures half_turn { HalfTurnTangent }
    ensures not_finite { TangentsNotFinite }
{}
