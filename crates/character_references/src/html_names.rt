//! The named character references of HTML (the HTML Standard, named character references), which are those
//! of CommonMark: 2,125 names and their texts. `scripts/html-names` writes this file.
//!
//! For each first letter there are the lines of a table of [`NamedReferences`]. In each, names that are often
//! written come first, and then all others, the shortest first. `NewLine`, whose text no line can hold, is
//! not among them.
//!
//! [`NamedReferences`]: crate::named::NamedReferences

/// The lines of the names that begin with each byte from `A` to `z`.
pub static LINES: [&str; 58] = [
    UPPER_A, UPPER_B, UPPER_C, UPPER_D, UPPER_E, UPPER_F, UPPER_G, UPPER_H, UPPER_I, UPPER_J,
    UPPER_K, UPPER_L, UPPER_M, UPPER_N, UPPER_O, UPPER_P, UPPER_Q, UPPER_R, UPPER_S, UPPER_T,
    UPPER_U, UPPER_V, UPPER_W, UPPER_X, UPPER_Y, UPPER_Z, "", "", "", "", "", "", LOWER_A, LOWER_B,
    LOWER_C, LOWER_D, LOWER_E, LOWER_F, LOWER_G, LOWER_H, LOWER_I, LOWER_J, LOWER_K, LOWER_L,
    LOWER_M, LOWER_N, LOWER_O, LOWER_P, LOWER_Q, LOWER_R, LOWER_S, LOWER_T, LOWER_U, LOWER_V,
    LOWER_W, LOWER_X, LOWER_Y, LOWER_Z,
];

/// Names that begin with `A`.
const UPPER_A: &str = "\
    AMP=&\nAcy=\u{410}\nAfr=\u{1d504}\nAnd=\u{2a53}\nAopf=\u{1d538}\nAscr=\u{1d49c}\n\
    Auml=\u{c4}\nAElig=\u{c6}\nAcirc=\u{c2}\nAlpha=\u{391}\nAmacr=\u{100}\nAogon=\u{104}\n\
    Aring=\u{c5}\nAacute=\u{c1}\nAbreve=\u{102}\nAgrave=\u{c0}\nAssign=\u{2254}\nAtilde=\u{c3}\n\
    ApplyFunction=\u{2061}";

/// Names that begin with `B`.
const UPPER_B: &str = "\
    Bcy=\u{411}\nBfr=\u{1d505}\nBarv=\u{2ae7}\nBeta=\u{392}\nBopf=\u{1d539}\nBscr=\u{212c}\n\
    Breve=\u{2d8}\nBarwed=\u{2306}\nBumpeq=\u{224e}\nBecause=\u{2235}\nBackslash=\u{2216}\n\
    Bernoullis=\u{212c}";

/// Names that begin with `C`.
const UPPER_C: &str = "\
    Cap=\u{22d2}\nCfr=\u{212d}\nChi=\u{3a7}\nCup=\u{22d3}\nCHcy=\u{427}\nCOPY=\u{a9}\n\
    Cdot=\u{10a}\nCopf=\u{2102}\nCscr=\u{1d49e}\nCcirc=\u{108}\nColon=\u{2237}\nCross=\u{2a2f}\n\
    Cacute=\u{106}\nCcaron=\u{10c}\nCcedil=\u{c7}\nColone=\u{2a74}\nConint=\u{222f}\n\
    CupCap=\u{224d}\nCayleys=\u{212d}\nCconint=\u{2230}\nCedilla=\u{b8}\nCenterDot=\u{b7}\n\
    CircleDot=\u{2299}\nCongruent=\u{2261}\nCoproduct=\u{2210}\nCirclePlus=\u{2295}\n\
    CircleMinus=\u{2296}\nCircleTimes=\u{2297}\nCloseCurlyQuote=\u{2019}\n\
    ContourIntegral=\u{222e}\nCapitalDifferentialD=\u{2145}\nCloseCurlyDoubleQuote=\u{201d}\n\
    ClockwiseContourIntegral=\u{2232}\nCounterClockwiseContourIntegral=\u{2233}";

/// Names that begin with `D`.
const UPPER_D: &str = "\
    DD=\u{2145}\nDcy=\u{414}\nDel=\u{2207}\nDfr=\u{1d507}\nDot=\u{a8}\nDJcy=\u{402}\n\
    DScy=\u{405}\nDZcy=\u{40f}\nDarr=\u{21a1}\nDopf=\u{1d53b}\nDscr=\u{1d49f}\nDashv=\u{2ae4}\n\
    Delta=\u{394}\nDagger=\u{2021}\nDcaron=\u{10e}\nDotDot=\u{20dc}\nDstrok=\u{110}\n\
    Diamond=\u{22c4}\nDownTee=\u{22a4}\nDDotrahd=\u{2911}\nDotEqual=\u{2250}\nDoubleDot=\u{a8}\n\
    DownArrow=\u{2193}\nDownBreve=\u{311}\nDownarrow=\u{21d3}\nDownArrowBar=\u{2913}\n\
    DownTeeArrow=\u{21a7}\nDifferentialD=\u{2146}\nDoubleLeftTee=\u{2ae4}\n\
    DoubleUpArrow=\u{21d1}\nDiacriticalDot=\u{2d9}\nDoubleRightTee=\u{22a8}\n\
    DownLeftVector=\u{21bd}\nDoubleDownArrow=\u{21d3}\nDoubleLeftArrow=\u{21d0}\n\
    DownRightVector=\u{21c1}\nDiacriticalAcute=\u{b4}\nDiacriticalGrave=`\n\
    DiacriticalTilde=\u{2dc}\nDoubleRightArrow=\u{21d2}\nDownArrowUpArrow=\u{21f5}\n\
    DoubleUpDownArrow=\u{21d5}\nDoubleVerticalBar=\u{2225}\nDownLeftTeeVector=\u{295e}\n\
    DownLeftVectorBar=\u{2956}\nDownRightTeeVector=\u{295f}\nDownRightVectorBar=\u{2957}\n\
    DoubleLongLeftArrow=\u{27f8}\nDownLeftRightVector=\u{2950}\nDoubleLeftRightArrow=\u{21d4}\n\
    DoubleLongRightArrow=\u{27f9}\nDoubleContourIntegral=\u{222f}\n\
    DiacriticalDoubleAcute=\u{2dd}\nDoubleLongLeftRightArrow=\u{27fa}";

/// Names that begin with `E`.
const UPPER_E: &str = "\
    ENG=\u{14a}\nETH=\u{d0}\nEcy=\u{42d}\nEfr=\u{1d508}\nEta=\u{397}\nEdot=\u{116}\n\
    Eopf=\u{1d53c}\nEscr=\u{2130}\nEsim=\u{2a73}\nEuml=\u{cb}\nEcirc=\u{ca}\nEmacr=\u{112}\n\
    Eogon=\u{118}\nEqual=\u{2a75}\nEacute=\u{c9}\nEcaron=\u{11a}\nEgrave=\u{c8}\n\
    Exists=\u{2203}\nElement=\u{2208}\nEpsilon=\u{395}\nEqualTilde=\u{2242}\n\
    Equilibrium=\u{21cc}\nExponentialE=\u{2147}\nEmptySmallSquare=\u{25fb}\n\
    EmptyVerySmallSquare=\u{25ab}";

/// Names that begin with `F`.
const UPPER_F: &str = "\
    Fcy=\u{424}\nFfr=\u{1d509}\nFopf=\u{1d53d}\nFscr=\u{2131}\nForAll=\u{2200}\n\
    Fouriertrf=\u{2131}\nFilledSmallSquare=\u{25fc}\nFilledVerySmallSquare=\u{25aa}";

/// Names that begin with `G`.
const UPPER_G: &str = "\
    GT=>\nGg=\u{22d9}\nGt=\u{226b}\nGcy=\u{413}\nGfr=\u{1d50a}\nGJcy=\u{403}\nGdot=\u{120}\n\
    Gopf=\u{1d53e}\nGscr=\u{1d4a2}\nGamma=\u{393}\nGcirc=\u{11c}\nGammad=\u{3dc}\n\
    Gbreve=\u{11e}\nGcedil=\u{122}\nGreaterLess=\u{2277}\nGreaterEqual=\u{2265}\n\
    GreaterTilde=\u{2273}\nGreaterGreater=\u{2aa2}\nGreaterEqualLess=\u{22db}\n\
    GreaterFullEqual=\u{2267}\nGreaterSlantEqual=\u{2a7e}";

/// Names that begin with `H`.
const UPPER_H: &str = "\
    Hat=^\nHfr=\u{210c}\nHopf=\u{210d}\nHscr=\u{210b}\nHacek=\u{2c7}\nHcirc=\u{124}\n\
    HARDcy=\u{42a}\nHstrok=\u{126}\nHumpEqual=\u{224f}\nHilbertSpace=\u{210b}\n\
    HumpDownHump=\u{224e}\nHorizontalLine=\u{2500}";

/// Names that begin with `I`.
const UPPER_I: &str = "\
    Im=\u{2111}\nIcy=\u{418}\nIfr=\u{2111}\nInt=\u{222c}\nIEcy=\u{415}\nIOcy=\u{401}\n\
    Idot=\u{130}\nIopf=\u{1d540}\nIota=\u{399}\nIscr=\u{2110}\nIuml=\u{cf}\nIJlig=\u{132}\n\
    Icirc=\u{ce}\nImacr=\u{12a}\nIogon=\u{12e}\nIukcy=\u{406}\nIacute=\u{cd}\nIgrave=\u{cc}\n\
    Itilde=\u{128}\nImplies=\u{21d2}\nIntegral=\u{222b}\nImaginaryI=\u{2148}\n\
    Intersection=\u{22c2}\nInvisibleComma=\u{2063}\nInvisibleTimes=\u{2062}";

/// Names that begin with `J`.
const UPPER_J: &str = "\
    Jcy=\u{419}\nJfr=\u{1d50d}\nJopf=\u{1d541}\nJscr=\u{1d4a5}\nJcirc=\u{134}\nJukcy=\u{404}\n\
    Jsercy=\u{408}";

/// Names that begin with `K`.
const UPPER_K: &str = "\
    Kcy=\u{41a}\nKfr=\u{1d50e}\nKHcy=\u{425}\nKJcy=\u{40c}\nKopf=\u{1d542}\nKscr=\u{1d4a6}\n\
    Kappa=\u{39a}\nKcedil=\u{136}";

/// Names that begin with `L`.
const UPPER_L: &str = "\
    LT=<\nLl=\u{22d8}\nLt=\u{226a}\nLcy=\u{41b}\nLfr=\u{1d50f}\nLsh=\u{21b0}\nLJcy=\u{409}\n\
    Lang=\u{27ea}\nLarr=\u{219e}\nLopf=\u{1d543}\nLscr=\u{2112}\nLacute=\u{139}\n\
    Lambda=\u{39b}\nLcaron=\u{13d}\nLcedil=\u{13b}\nLmidot=\u{13f}\nLstrok=\u{141}\n\
    LeftTee=\u{22a3}\nLessLess=\u{2aa1}\nLeftArrow=\u{2190}\nLeftFloor=\u{230a}\n\
    Leftarrow=\u{21d0}\nLessTilde=\u{2272}\nLaplacetrf=\u{2112}\nLeftVector=\u{21bc}\n\
    Lleftarrow=\u{21da}\nLeftCeiling=\u{2308}\nLessGreater=\u{2276}\nLeftArrowBar=\u{21e4}\n\
    LeftTeeArrow=\u{21a4}\nLeftTriangle=\u{22b2}\nLeftUpVector=\u{21bf}\n\
    LeftTeeVector=\u{295a}\nLeftVectorBar=\u{2952}\nLessFullEqual=\u{2266}\n\
    LongLeftArrow=\u{27f5}\nLongleftarrow=\u{27f8}\nLeftDownVector=\u{21c3}\n\
    LeftRightArrow=\u{2194}\nLeftrightarrow=\u{21d4}\nLessSlantEqual=\u{2a7d}\n\
    LongRightArrow=\u{27f6}\nLongrightarrow=\u{27f9}\nLowerLeftArrow=\u{2199}\n\
    LeftRightVector=\u{294e}\nLeftTriangleBar=\u{29cf}\nLeftUpTeeVector=\u{2960}\n\
    LeftUpVectorBar=\u{2958}\nLowerRightArrow=\u{2198}\nLeftAngleBracket=\u{27e8}\n\
    LeftUpDownVector=\u{2951}\nLessEqualGreater=\u{22da}\nLeftDoubleBracket=\u{27e6}\n\
    LeftDownTeeVector=\u{2961}\nLeftDownVectorBar=\u{2959}\nLeftTriangleEqual=\u{22b4}\n\
    LongLeftRightArrow=\u{27f7}\nLongleftrightarrow=\u{27fa}\nLeftArrowRightArrow=\u{21c6}";

/// Names that begin with `M`.
const UPPER_M: &str = "\
    Mu=\u{39c}\nMap=\u{2905}\nMcy=\u{41c}\nMfr=\u{1d510}\nMopf=\u{1d544}\nMscr=\u{2133}\n\
    Mellintrf=\u{2133}\nMinusPlus=\u{2213}\nMediumSpace=\u{205f}";

/// Names that begin with `N`.
const UPPER_N: &str = "\
    Nu=\u{39d}\nNcy=\u{41d}\nNfr=\u{1d511}\nNot=\u{2aec}\nNJcy=\u{40a}\nNopf=\u{2115}\n\
    Nscr=\u{1d4a9}\nNacute=\u{143}\nNcaron=\u{147}\nNcedil=\u{145}\nNtilde=\u{d1}\n\
    NoBreak=\u{2060}\nNotLess=\u{226e}\nNotEqual=\u{2260}\nNotTilde=\u{2241}\n\
    NotCupCap=\u{226d}\nNotExists=\u{2204}\nNotSubset=\u{2282}\u{20d2}\nNotElement=\u{2209}\n\
    NotGreater=\u{226f}\nNotLessLess=\u{226a}\u{338}\nNotPrecedes=\u{2280}\n\
    NotSucceeds=\u{2281}\nNotSuperset=\u{2283}\u{20d2}\nNotCongruent=\u{2262}\n\
    NotHumpEqual=\u{224f}\u{338}\nNotLessEqual=\u{2270}\nNotLessTilde=\u{2274}\n\
    NotEqualTilde=\u{2242}\u{338}\nNotTildeEqual=\u{2244}\nNotTildeTilde=\u{2249}\n\
    NestedLessLess=\u{226a}\nNotGreaterLess=\u{2279}\nNotLessGreater=\u{2278}\n\
    NotSubsetEqual=\u{2288}\nNotVerticalBar=\u{2224}\nNotGreaterEqual=\u{2271}\n\
    NotGreaterTilde=\u{2275}\nNotHumpDownHump=\u{224e}\u{338}\nNotLeftTriangle=\u{22ea}\n\
    NotSquareSubset=\u{228f}\u{338}\nNonBreakingSpace=\u{a0}\nNotPrecedesEqual=\u{2aaf}\u{338}\n\
    NotRightTriangle=\u{22eb}\nNotSucceedsEqual=\u{2ab0}\u{338}\n\
    NotSucceedsTilde=\u{227f}\u{338}\nNotSupersetEqual=\u{2289}\nNegativeThinSpace=\u{200b}\n\
    NotGreaterGreater=\u{226b}\u{338}\nNotLessSlantEqual=\u{2a7d}\u{338}\n\
    NotNestedLessLess=\u{2aa1}\u{338}\nNotReverseElement=\u{220c}\n\
    NotSquareSuperset=\u{2290}\u{338}\nNotTildeFullEqual=\u{2247}\nNegativeThickSpace=\u{200b}\n\
    NotLeftTriangleBar=\u{29cf}\u{338}\nNegativeMediumSpace=\u{200b}\n\
    NotGreaterFullEqual=\u{2267}\u{338}\nNotRightTriangleBar=\u{29d0}\u{338}\n\
    NestedGreaterGreater=\u{226b}\nNotDoubleVerticalBar=\u{2226}\n\
    NotGreaterSlantEqual=\u{2a7e}\u{338}\nNotLeftTriangleEqual=\u{22ec}\n\
    NotSquareSubsetEqual=\u{22e2}\nNegativeVeryThinSpace=\u{200b}\n\
    NotPrecedesSlantEqual=\u{22e0}\nNotRightTriangleEqual=\u{22ed}\n\
    NotSucceedsSlantEqual=\u{22e1}\nNotSquareSupersetEqual=\u{22e3}\n\
    NotNestedGreaterGreater=\u{2aa2}\u{338}";

/// Names that begin with `O`.
const UPPER_O: &str = "\
    Or=\u{2a54}\nOcy=\u{41e}\nOfr=\u{1d512}\nOopf=\u{1d546}\nOscr=\u{1d4aa}\nOuml=\u{d6}\n\
    OElig=\u{152}\nOcirc=\u{d4}\nOmacr=\u{14c}\nOmega=\u{3a9}\nOacute=\u{d3}\nOdblac=\u{150}\n\
    Ograve=\u{d2}\nOslash=\u{d8}\nOtilde=\u{d5}\nOtimes=\u{2a37}\nOmicron=\u{39f}\n\
    OverBar=\u{203e}\nOverBrace=\u{23de}\nOverBracket=\u{23b4}\nOpenCurlyQuote=\u{2018}\n\
    OverParenthesis=\u{23dc}\nOpenCurlyDoubleQuote=\u{201c}";

/// Names that begin with `P`.
const UPPER_P: &str = "\
    Pi=\u{3a0}\nPr=\u{2abb}\nPcy=\u{41f}\nPfr=\u{1d513}\nPhi=\u{3a6}\nPsi=\u{3a8}\n\
    Popf=\u{2119}\nPscr=\u{1d4ab}\nPrime=\u{2033}\nProduct=\u{220f}\nPartialD=\u{2202}\n\
    Precedes=\u{227a}\nPlusMinus=\u{b1}\nProportion=\u{2237}\nProportional=\u{221d}\n\
    Poincareplane=\u{210c}\nPrecedesEqual=\u{2aaf}\nPrecedesTilde=\u{227e}\n\
    PrecedesSlantEqual=\u{227c}";

/// Names that begin with `Q`.
const UPPER_Q: &str = "\
    Qfr=\u{1d514}\nQUOT=\"\nQopf=\u{211a}\nQscr=\u{1d4ac}";

/// Names that begin with `R`.
const UPPER_R: &str = "\
    Re=\u{211c}\nREG=\u{ae}\nRcy=\u{420}\nRfr=\u{211c}\nRho=\u{3a1}\nRsh=\u{21b1}\n\
    Rang=\u{27eb}\nRarr=\u{21a0}\nRopf=\u{211d}\nRscr=\u{211b}\nRBarr=\u{2910}\nRacute=\u{154}\n\
    Rarrtl=\u{2916}\nRcaron=\u{158}\nRcedil=\u{156}\nRightTee=\u{22a2}\nRightArrow=\u{2192}\n\
    RightFloor=\u{230b}\nRightarrow=\u{21d2}\nRightVector=\u{21c0}\nRrightarrow=\u{21db}\n\
    RuleDelayed=\u{29f4}\nRightCeiling=\u{2309}\nRoundImplies=\u{2970}\nRightArrowBar=\u{21e5}\n\
    RightTeeArrow=\u{21a6}\nRightTriangle=\u{22b3}\nRightUpVector=\u{21be}\n\
    ReverseElement=\u{220b}\nRightTeeVector=\u{295b}\nRightVectorBar=\u{2953}\n\
    RightDownVector=\u{21c2}\nRightTriangleBar=\u{29d0}\nRightUpTeeVector=\u{295c}\n\
    RightUpVectorBar=\u{2954}\nRightAngleBracket=\u{27e9}\nRightUpDownVector=\u{294f}\n\
    ReverseEquilibrium=\u{21cb}\nRightDoubleBracket=\u{27e7}\nRightDownTeeVector=\u{295d}\n\
    RightDownVectorBar=\u{2955}\nRightTriangleEqual=\u{22b5}\nRightArrowLeftArrow=\u{21c4}\n\
    ReverseUpEquilibrium=\u{296f}";

/// Names that begin with `S`.
const UPPER_S: &str = "\
    Sc=\u{2abc}\nScy=\u{421}\nSfr=\u{1d516}\nSub=\u{22d0}\nSum=\u{2211}\nSup=\u{22d1}\n\
    SHcy=\u{428}\nSopf=\u{1d54a}\nSqrt=\u{221a}\nSscr=\u{1d4ae}\nStar=\u{22c6}\nScirc=\u{15c}\n\
    Sigma=\u{3a3}\nSHCHcy=\u{429}\nSOFTcy=\u{42c}\nSacute=\u{15a}\nScaron=\u{160}\n\
    Scedil=\u{15e}\nSquare=\u{25a1}\nSubset=\u{22d0}\nSupset=\u{22d1}\nSucceeds=\u{227b}\n\
    SuchThat=\u{220b}\nSuperset=\u{2283}\nSmallCircle=\u{2218}\nSquareUnion=\u{2294}\n\
    SubsetEqual=\u{2286}\nShortUpArrow=\u{2191}\nSquareSubset=\u{228f}\nSucceedsEqual=\u{2ab0}\n\
    SucceedsTilde=\u{227f}\nSupersetEqual=\u{2287}\nShortDownArrow=\u{2193}\n\
    ShortLeftArrow=\u{2190}\nSquareSuperset=\u{2290}\nShortRightArrow=\u{2192}\n\
    SquareSubsetEqual=\u{2291}\nSquareIntersection=\u{2293}\nSucceedsSlantEqual=\u{227d}\n\
    SquareSupersetEqual=\u{2292}";

/// Names that begin with `T`.
const UPPER_T: &str = "\
    Tab=\t\nTau=\u{3a4}\nTcy=\u{422}\nTfr=\u{1d517}\nTScy=\u{426}\nTopf=\u{1d54b}\n\
    Tscr=\u{1d4af}\nTHORN=\u{de}\nTRADE=\u{2122}\nTSHcy=\u{40b}\nTheta=\u{398}\nTilde=\u{223c}\n\
    Tcaron=\u{164}\nTcedil=\u{162}\nTstrok=\u{166}\nTherefore=\u{2234}\nThinSpace=\u{2009}\n\
    TripleDot=\u{20db}\nThickSpace=\u{205f}\u{200a}\nTildeEqual=\u{2243}\nTildeTilde=\u{2248}\n\
    TildeFullEqual=\u{2245}";

/// Names that begin with `U`.
const UPPER_U: &str = "\
    Ucy=\u{423}\nUfr=\u{1d518}\nUarr=\u{219f}\nUopf=\u{1d54c}\nUpsi=\u{3d2}\nUscr=\u{1d4b0}\n\
    Uuml=\u{dc}\nUbrcy=\u{40e}\nUcirc=\u{db}\nUmacr=\u{16a}\nUnion=\u{22c3}\nUogon=\u{172}\n\
    UpTee=\u{22a5}\nUring=\u{16e}\nUacute=\u{da}\nUbreve=\u{16c}\nUdblac=\u{170}\n\
    Ugrave=\u{d9}\nUtilde=\u{168}\nUpArrow=\u{2191}\nUparrow=\u{21d1}\nUpsilon=\u{3a5}\n\
    Uarrocir=\u{2949}\nUnderBar=_\nUnionPlus=\u{228e}\nUnderBrace=\u{23df}\n\
    UpArrowBar=\u{2912}\nUpTeeArrow=\u{21a5}\nUpDownArrow=\u{2195}\nUpdownarrow=\u{21d5}\n\
    UnderBracket=\u{23b5}\nUpEquilibrium=\u{296e}\nUpperLeftArrow=\u{2196}\n\
    UpperRightArrow=\u{2197}\nUnderParenthesis=\u{23dd}\nUpArrowDownArrow=\u{21c5}";

/// Names that begin with `V`.
const UPPER_V: &str = "\
    Vcy=\u{412}\nVee=\u{22c1}\nVfr=\u{1d519}\nVbar=\u{2aeb}\nVert=\u{2016}\nVopf=\u{1d54d}\n\
    Vscr=\u{1d4b1}\nVDash=\u{22ab}\nVdash=\u{22a9}\nVdashl=\u{2ae6}\nVerbar=\u{2016}\n\
    Vvdash=\u{22aa}\nVerticalBar=\u{2223}\nVerticalLine=|\nVerticalTilde=\u{2240}\n\
    VeryThinSpace=\u{200a}\nVerticalSeparator=\u{2758}";

/// Names that begin with `W`.
const UPPER_W: &str = "\
    Wfr=\u{1d51a}\nWopf=\u{1d54e}\nWscr=\u{1d4b2}\nWcirc=\u{174}\nWedge=\u{22c0}";

/// Names that begin with `X`.
const UPPER_X: &str = "\
    Xi=\u{39e}\nXfr=\u{1d51b}\nXopf=\u{1d54f}\nXscr=\u{1d4b3}";

/// Names that begin with `Y`.
const UPPER_Y: &str = "\
    Ycy=\u{42b}\nYfr=\u{1d51c}\nYAcy=\u{42f}\nYIcy=\u{407}\nYUcy=\u{42e}\nYopf=\u{1d550}\n\
    Yscr=\u{1d4b4}\nYuml=\u{178}\nYcirc=\u{176}\nYacute=\u{dd}";

/// Names that begin with `Z`.
const UPPER_Z: &str = "\
    Zcy=\u{417}\nZfr=\u{2128}\nZHcy=\u{416}\nZdot=\u{17b}\nZeta=\u{396}\nZopf=\u{2124}\n\
    Zscr=\u{1d4b5}\nZacute=\u{179}\nZcaron=\u{17d}\nZeroWidthSpace=\u{200b}";

/// Names that begin with `a`.
const LOWER_A: &str = "\
    amp=&\nauml=\u{e4}\napos='\nac=\u{223e}\naf=\u{2061}\nap=\u{2248}\nacE=\u{223e}\u{333}\n\
    acd=\u{223f}\nacy=\u{430}\nafr=\u{1d51e}\nand=\u{2227}\nang=\u{2220}\napE=\u{2a70}\n\
    ape=\u{224a}\nast=*\nandd=\u{2a5c}\nandv=\u{2a5a}\nange=\u{29a4}\naopf=\u{1d552}\n\
    apid=\u{224b}\nascr=\u{1d4b6}\nacirc=\u{e2}\nacute=\u{b4}\naelig=\u{e6}\naleph=\u{2135}\n\
    alpha=\u{3b1}\namacr=\u{101}\namalg=\u{2a3f}\nangle=\u{2220}\nangrt=\u{221f}\nangst=\u{c5}\n\
    aogon=\u{105}\naring=\u{e5}\nasymp=\u{2248}\nawint=\u{2a11}\naacute=\u{e1}\nabreve=\u{103}\n\
    agrave=\u{e0}\nandand=\u{2a55}\nangmsd=\u{2221}\nangsph=\u{2222}\napacir=\u{2a6f}\n\
    approx=\u{2248}\natilde=\u{e3}\nalefsym=\u{2135}\nangrtvb=\u{22be}\nangzarr=\u{237c}\n\
    asympeq=\u{224d}\nandslope=\u{2a58}\nangmsdaa=\u{29a8}\nangmsdab=\u{29a9}\n\
    angmsdac=\u{29aa}\nangmsdad=\u{29ab}\nangmsdae=\u{29ac}\nangmsdaf=\u{29ad}\n\
    angmsdag=\u{29ae}\nangmsdah=\u{29af}\nangrtvbd=\u{299d}\napproxeq=\u{224a}\n\
    awconint=\u{2233}";

/// Names that begin with `b`.
const LOWER_B: &str = "\
    bull=\u{2022}\nbcy=\u{431}\nbfr=\u{1d51f}\nbne==\u{20e5}\nbot=\u{22a5}\nbNot=\u{2aed}\n\
    bbrk=\u{23b5}\nbeta=\u{3b2}\nbeth=\u{2136}\nbnot=\u{2310}\nbopf=\u{1d553}\nboxH=\u{2550}\n\
    boxV=\u{2551}\nboxh=\u{2500}\nboxv=\u{2502}\nbscr=\u{1d4b7}\nbsim=\u{223d}\nbsol=\\\n\
    bump=\u{224e}\nbcong=\u{224c}\nbdquo=\u{201e}\nbepsi=\u{3f6}\nblank=\u{2423}\n\
    blk12=\u{2592}\nblk14=\u{2591}\nblk34=\u{2593}\nblock=\u{2588}\nboxDL=\u{2557}\n\
    boxDR=\u{2554}\nboxDl=\u{2556}\nboxDr=\u{2553}\nboxHD=\u{2566}\nboxHU=\u{2569}\n\
    boxHd=\u{2564}\nboxHu=\u{2567}\nboxUL=\u{255d}\nboxUR=\u{255a}\nboxUl=\u{255c}\n\
    boxUr=\u{2559}\nboxVH=\u{256c}\nboxVL=\u{2563}\nboxVR=\u{2560}\nboxVh=\u{256b}\n\
    boxVl=\u{2562}\nboxVr=\u{255f}\nboxdL=\u{2555}\nboxdR=\u{2552}\nboxdl=\u{2510}\n\
    boxdr=\u{250c}\nboxhD=\u{2565}\nboxhU=\u{2568}\nboxhd=\u{252c}\nboxhu=\u{2534}\n\
    boxuL=\u{255b}\nboxuR=\u{2558}\nboxul=\u{2518}\nboxur=\u{2514}\nboxvH=\u{256a}\n\
    boxvL=\u{2561}\nboxvR=\u{255e}\nboxvh=\u{253c}\nboxvl=\u{2524}\nboxvr=\u{251c}\n\
    breve=\u{2d8}\nbsemi=\u{204f}\nbsime=\u{22cd}\nbsolb=\u{29c5}\nbumpE=\u{2aae}\n\
    bumpe=\u{224f}\nbarvee=\u{22bd}\nbarwed=\u{2305}\nbecaus=\u{2235}\nbernou=\u{212c}\n\
    bigcap=\u{22c2}\nbigcup=\u{22c3}\nbigvee=\u{22c1}\nbkarow=\u{290d}\nbottom=\u{22a5}\n\
    bowtie=\u{22c8}\nboxbox=\u{29c9}\nbprime=\u{2035}\nbrvbar=\u{a6}\nbullet=\u{2022}\n\
    bumpeq=\u{224f}\nbacksim=\u{223d}\nbecause=\u{2235}\nbemptyv=\u{29b0}\nbetween=\u{226c}\n\
    bigcirc=\u{25ef}\nbigodot=\u{2a00}\nbigstar=\u{2605}\nbnequiv=\u{2261}\u{20e5}\n\
    boxplus=\u{229e}\nbackcong=\u{224c}\nbarwedge=\u{2305}\nbbrktbrk=\u{23b6}\n\
    bigoplus=\u{2a01}\nbigsqcup=\u{2a06}\nbiguplus=\u{2a04}\nbigwedge=\u{22c0}\n\
    boxminus=\u{229f}\nboxtimes=\u{22a0}\nbsolhsub=\u{27c8}\nbackprime=\u{2035}\n\
    backsimeq=\u{22cd}\nbigotimes=\u{2a02}\nbackepsilon=\u{3f6}\nblacksquare=\u{25aa}\n\
    blacklozenge=\u{29eb}\nbigtriangleup=\u{25b3}\nblacktriangle=\u{25b4}\n\
    bigtriangledown=\u{25bd}\nblacktriangledown=\u{25be}\nblacktriangleleft=\u{25c2}\n\
    blacktriangleright=\u{25b8}";

/// Names that begin with `c`.
const LOWER_C: &str = "\
    copy=\u{a9}\ncap=\u{2229}\ncfr=\u{1d520}\nchi=\u{3c7}\ncir=\u{25cb}\ncup=\u{222a}\n\
    caps=\u{2229}\u{fe00}\ncdot=\u{10b}\ncent=\u{a2}\nchcy=\u{447}\ncirE=\u{29c3}\n\
    circ=\u{2c6}\ncire=\u{2257}\ncomp=\u{2201}\ncong=\u{2245}\ncopf=\u{1d554}\ncscr=\u{1d4b8}\n\
    csub=\u{2acf}\ncsup=\u{2ad0}\ncups=\u{222a}\u{fe00}\ncaret=\u{2041}\ncaron=\u{2c7}\n\
    ccaps=\u{2a4d}\nccirc=\u{109}\nccups=\u{2a4c}\ncedil=\u{b8}\ncheck=\u{2713}\n\
    clubs=\u{2663}\ncolon=:\ncomma=,\ncrarr=\u{21b5}\ncross=\u{2717}\ncsube=\u{2ad1}\n\
    csupe=\u{2ad2}\nctdot=\u{22ef}\ncuepr=\u{22de}\ncuesc=\u{22df}\ncupor=\u{2a45}\n\
    cuvee=\u{22ce}\ncuwed=\u{22cf}\ncwint=\u{2231}\ncacute=\u{107}\ncapand=\u{2a44}\n\
    capcap=\u{2a4b}\ncapcup=\u{2a47}\ncapdot=\u{2a40}\nccaron=\u{10d}\nccedil=\u{e7}\n\
    circeq=\u{2257}\ncirmid=\u{2aef}\ncolone=\u{2254}\ncommat=@\ncompfn=\u{2218}\n\
    conint=\u{222e}\ncoprod=\u{2210}\ncopysr=\u{2117}\ncularr=\u{21b6}\ncupcap=\u{2a46}\n\
    cupcup=\u{2a4a}\ncupdot=\u{228d}\ncurarr=\u{21b7}\ncurren=\u{a4}\ncylcty=\u{232d}\n\
    ccupssm=\u{2a50}\ncemptyv=\u{29b2}\ncirscir=\u{29c2}\ncoloneq=\u{2254}\ncongdot=\u{2a6d}\n\
    cudarrl=\u{2938}\ncudarrr=\u{2935}\ncularrp=\u{293d}\ncurarrm=\u{293c}\ncapbrcup=\u{2a49}\n\
    circledR=\u{ae}\ncircledS=\u{24c8}\ncirfnint=\u{2a10}\nclubsuit=\u{2663}\n\
    cupbrcap=\u{2a48}\ncurlyvee=\u{22ce}\ncwconint=\u{2232}\ncenterdot=\u{b7}\n\
    checkmark=\u{2713}\ncomplexes=\u{2102}\ncircledast=\u{229b}\ncomplement=\u{2201}\n\
    curlywedge=\u{22cf}\ncircledcirc=\u{229a}\ncircleddash=\u{229d}\ncurlyeqprec=\u{22de}\n\
    curlyeqsucc=\u{22df}\ncurvearrowleft=\u{21b6}\ncirclearrowleft=\u{21ba}\n\
    curvearrowright=\u{21b7}\ncirclearrowright=\u{21bb}";

/// Names that begin with `d`.
const LOWER_D: &str = "\
    deg=\u{b0}\ndd=\u{2146}\ndcy=\u{434}\ndfr=\u{1d521}\ndie=\u{a8}\ndiv=\u{f7}\ndot=\u{2d9}\n\
    dArr=\u{21d3}\ndHar=\u{2965}\ndarr=\u{2193}\ndash=\u{2010}\ndiam=\u{22c4}\ndjcy=\u{452}\n\
    dopf=\u{1d555}\ndscr=\u{1d4b9}\ndscy=\u{455}\ndsol=\u{29f6}\ndtri=\u{25bf}\ndzcy=\u{45f}\n\
    dashv=\u{22a3}\ndblac=\u{2dd}\nddarr=\u{21ca}\ndelta=\u{3b4}\ndharl=\u{21c3}\n\
    dharr=\u{21c2}\ndiams=\u{2666}\ndisin=\u{22f2}\ndoteq=\u{2250}\ndtdot=\u{22f1}\n\
    dtrif=\u{25be}\nduarr=\u{21f5}\nduhar=\u{296f}\ndagger=\u{2020}\ndaleth=\u{2138}\n\
    dcaron=\u{10f}\ndfisht=\u{297f}\ndivide=\u{f7}\ndivonx=\u{22c7}\ndlcorn=\u{231e}\n\
    dlcrop=\u{230d}\ndollar=$\ndrcorn=\u{231f}\ndrcrop=\u{230c}\ndstrok=\u{111}\n\
    dbkarow=\u{290f}\nddagger=\u{2021}\nddotseq=\u{2a77}\ndemptyv=\u{29b1}\ndiamond=\u{22c4}\n\
    digamma=\u{3dd}\ndotplus=\u{2214}\ndwangle=\u{29a6}\ndoteqdot=\u{2251}\ndotminus=\u{2238}\n\
    drbkarow=\u{2910}\ndzigrarr=\u{27ff}\ndotsquare=\u{22a1}\ndownarrow=\u{2193}\n\
    diamondsuit=\u{2666}\ndivideontimes=\u{22c7}\ndoublebarwedge=\u{2306}\n\
    downdownarrows=\u{21ca}\ndownharpoonleft=\u{21c3}\ndownharpoonright=\u{21c2}";

/// Names that begin with `e`.
const LOWER_E: &str = "\
    eacute=\u{e9}\negrave=\u{e8}\neuro=\u{20ac}\nee=\u{2147}\neg=\u{2a9a}\nel=\u{2a99}\n\
    ecy=\u{44d}\nefr=\u{1d522}\negs=\u{2a96}\nell=\u{2113}\nels=\u{2a95}\neng=\u{14b}\n\
    eta=\u{3b7}\neth=\u{f0}\neDot=\u{2251}\necir=\u{2256}\nedot=\u{117}\nemsp=\u{2003}\n\
    ensp=\u{2002}\neopf=\u{1d556}\nepar=\u{22d5}\nepsi=\u{3b5}\nescr=\u{212f}\nesim=\u{2242}\n\
    euml=\u{eb}\nexcl=!\neDDot=\u{2a77}\necirc=\u{ea}\nefDot=\u{2252}\nemacr=\u{113}\n\
    empty=\u{2205}\neogon=\u{119}\neplus=\u{2a71}\nepsiv=\u{3f5}\neqsim=\u{2242}\n\
    equiv=\u{2261}\nerDot=\u{2253}\nerarr=\u{2971}\nesdot=\u{2250}\nexist=\u{2203}\n\
    easter=\u{2a6e}\necaron=\u{11b}\necolon=\u{2255}\negsdot=\u{2a98}\nelsdot=\u{2a97}\n\
    emptyv=\u{2205}\nemsp13=\u{2004}\nemsp14=\u{2005}\neparsl=\u{29e3}\neqcirc=\u{2256}\n\
    equals==\nequest=\u{225f}\nepsilon=\u{3b5}\neqcolon=\u{2255}\nequivDD=\u{2a78}\n\
    elinters=\u{23e7}\nemptyset=\u{2205}\neqvparsl=\u{29e5}\neqslantgtr=\u{2a96}\n\
    eqslantless=\u{2a95}\nexpectation=\u{2130}\nexponentiale=\u{2147}";

/// Names that begin with `f`.
const LOWER_F: &str = "\
    fcy=\u{444}\nffr=\u{1d523}\nflat=\u{266d}\nfnof=\u{192}\nfopf=\u{1d557}\nfork=\u{22d4}\n\
    fscr=\u{1d4bb}\nfflig=\u{fb00}\nfilig=\u{fb01}\nfjlig=fj\nfllig=\u{fb02}\nfltns=\u{25b1}\n\
    forkv=\u{2ad9}\nfrasl=\u{2044}\nfrown=\u{2322}\nfemale=\u{2640}\nffilig=\u{fb03}\n\
    ffllig=\u{fb04}\nforall=\u{2200}\nfrac12=\u{bd}\nfrac13=\u{2153}\nfrac14=\u{bc}\n\
    frac15=\u{2155}\nfrac16=\u{2159}\nfrac18=\u{215b}\nfrac23=\u{2154}\nfrac25=\u{2156}\n\
    frac34=\u{be}\nfrac35=\u{2157}\nfrac38=\u{215c}\nfrac45=\u{2158}\nfrac56=\u{215a}\n\
    frac58=\u{215d}\nfrac78=\u{215e}\nfpartint=\u{2a0d}\nfallingdotseq=\u{2252}";

/// Names that begin with `g`.
const LOWER_G: &str = "\
    gt=>\ngE=\u{2267}\nge=\u{2265}\ngg=\u{226b}\ngl=\u{2277}\ngEl=\u{2a8c}\ngap=\u{2a86}\n\
    gcy=\u{433}\ngel=\u{22db}\ngeq=\u{2265}\nges=\u{2a7e}\ngfr=\u{1d524}\nggg=\u{22d9}\n\
    glE=\u{2a92}\ngla=\u{2aa5}\nglj=\u{2aa4}\ngnE=\u{2269}\ngne=\u{2a88}\ngdot=\u{121}\n\
    geqq=\u{2267}\ngesl=\u{22db}\u{fe00}\ngjcy=\u{453}\ngnap=\u{2a8a}\ngneq=\u{2a88}\n\
    gopf=\u{1d558}\ngscr=\u{210a}\ngsim=\u{2273}\ngtcc=\u{2aa7}\ngvnE=\u{2269}\u{fe00}\n\
    gamma=\u{3b3}\ngcirc=\u{11d}\ngescc=\u{2aa9}\ngimel=\u{2137}\ngneqq=\u{2269}\n\
    gnsim=\u{22e7}\ngrave=`\ngsime=\u{2a8e}\ngsiml=\u{2a90}\ngtcir=\u{2a7a}\ngtdot=\u{22d7}\n\
    gacute=\u{1f5}\ngammad=\u{3dd}\ngbreve=\u{11f}\ngesdot=\u{2a80}\ngesles=\u{2a94}\n\
    gtlPar=\u{2995}\ngtrarr=\u{2978}\ngtrdot=\u{22d7}\ngtrsim=\u{2273}\ngesdoto=\u{2a82}\n\
    gtquest=\u{2a7c}\ngtrless=\u{2277}\ngeqslant=\u{2a7e}\ngesdotol=\u{2a84}\n\
    gnapprox=\u{2a8a}\ngtrapprox=\u{2a86}\ngtreqless=\u{22db}\ngvertneqq=\u{2269}\u{fe00}\n\
    gtreqqless=\u{2a8c}";

/// Names that begin with `h`.
const LOWER_H: &str = "\
    hellip=\u{2026}\nhfr=\u{1d525}\nhArr=\u{21d4}\nhalf=\u{bd}\nharr=\u{2194}\nhbar=\u{210f}\n\
    hopf=\u{1d559}\nhscr=\u{1d4bd}\nharrw=\u{21ad}\nhcirc=\u{125}\nhoarr=\u{21ff}\n\
    hairsp=\u{200a}\nhamilt=\u{210b}\nhardcy=\u{44a}\nhearts=\u{2665}\nhercon=\u{22b9}\n\
    homtht=\u{223b}\nhorbar=\u{2015}\nhslash=\u{210f}\nhstrok=\u{127}\nhybull=\u{2043}\n\
    hyphen=\u{2010}\nharrcir=\u{2948}\nhksearow=\u{2925}\nhkswarow=\u{2926}\n\
    heartsuit=\u{2665}\nhookleftarrow=\u{21a9}\nhookrightarrow=\u{21aa}";

/// Names that begin with `i`.
const LOWER_I: &str = "\
    ic=\u{2063}\nii=\u{2148}\nin=\u{2208}\nit=\u{2062}\nicy=\u{438}\niff=\u{21d4}\n\
    ifr=\u{1d526}\nint=\u{222b}\niecy=\u{435}\nimof=\u{22b7}\niocy=\u{451}\niopf=\u{1d55a}\n\
    iota=\u{3b9}\niscr=\u{1d4be}\nisin=\u{2208}\niuml=\u{ef}\nicirc=\u{ee}\niexcl=\u{a1}\n\
    iiint=\u{222d}\niiota=\u{2129}\nijlig=\u{133}\nimacr=\u{12b}\nimage=\u{2111}\n\
    imath=\u{131}\nimped=\u{1b5}\ninfin=\u{221e}\niogon=\u{12f}\niprod=\u{2a3c}\n\
    isinE=\u{22f9}\nisins=\u{22f4}\nisinv=\u{2208}\niukcy=\u{456}\niacute=\u{ed}\n\
    igrave=\u{ec}\niiiint=\u{2a0c}\niinfin=\u{29dc}\nincare=\u{2105}\ninodot=\u{131}\n\
    intcal=\u{22ba}\niquest=\u{bf}\nisinsv=\u{22f3}\nitilde=\u{129}\nintprod=\u{2a3c}\n\
    isindot=\u{22f5}\nimagline=\u{2110}\nimagpart=\u{2111}\ninfintie=\u{29dd}\n\
    integers=\u{2124}\nintercal=\u{22ba}\nintlarhk=\u{2a17}";

/// Names that begin with `j`.
const LOWER_J: &str = "\
    jcy=\u{439}\njfr=\u{1d527}\njopf=\u{1d55b}\njscr=\u{1d4bf}\njcirc=\u{135}\njmath=\u{237}\n\
    jukcy=\u{454}\njsercy=\u{458}";

/// Names that begin with `k`.
const LOWER_K: &str = "\
    kcy=\u{43a}\nkfr=\u{1d528}\nkhcy=\u{445}\nkjcy=\u{45c}\nkopf=\u{1d55c}\nkscr=\u{1d4c0}\n\
    kappa=\u{3ba}\nkappav=\u{3f0}\nkcedil=\u{137}\nkgreen=\u{138}";

/// Names that begin with `l`.
const LOWER_L: &str = "\
    lt=<\nlarr=\u{2190}\nlsquo=\u{2018}\nldquo=\u{201c}\nlaquo=\u{ab}\nlE=\u{2266}\n\
    le=\u{2264}\nlg=\u{2276}\nll=\u{226a}\nlEg=\u{2a8b}\nlap=\u{2a85}\nlat=\u{2aab}\n\
    lcy=\u{43b}\nleg=\u{22da}\nleq=\u{2264}\nles=\u{2a7d}\nlfr=\u{1d529}\nlgE=\u{2a91}\n\
    lnE=\u{2268}\nlne=\u{2a87}\nloz=\u{25ca}\nlrm=\u{200e}\nlsh=\u{21b0}\nlArr=\u{21d0}\n\
    lHar=\u{2962}\nlang=\u{27e8}\nlate=\u{2aad}\nlcub={\nldca=\u{2936}\nldsh=\u{21b2}\n\
    leqq=\u{2266}\nlesg=\u{22da}\u{fe00}\nljcy=\u{459}\nlnap=\u{2a89}\nlneq=\u{2a87}\n\
    lopf=\u{1d55d}\nlozf=\u{29eb}\nlpar=(\nlscr=\u{1d4c1}\nlsim=\u{2272}\nlsqb=[\n\
    ltcc=\u{2aa6}\nltri=\u{25c3}\nlvnE=\u{2268}\u{fe00}\nlAarr=\u{21da}\nlBarr=\u{290e}\n\
    langd=\u{2991}\nlarrb=\u{21e4}\nlates=\u{2aad}\u{fe00}\nlbarr=\u{290c}\nlbbrk=\u{2772}\n\
    lbrke=\u{298b}\nlceil=\u{2308}\nlescc=\u{2aa8}\nlhard=\u{21bd}\nlharu=\u{21bc}\n\
    lhblk=\u{2584}\nllarr=\u{21c7}\nlltri=\u{25fa}\nlneqq=\u{2268}\nlnsim=\u{22e6}\n\
    loang=\u{27ec}\nloarr=\u{21fd}\nlobrk=\u{27e6}\nlopar=\u{2985}\nlrarr=\u{21c6}\n\
    lrhar=\u{21cb}\nlrtri=\u{22bf}\nlsime=\u{2a8d}\nlsimg=\u{2a8f}\nltcir=\u{2a79}\n\
    ltdot=\u{22d6}\nltrie=\u{22b4}\nltrif=\u{25c2}\nlAtail=\u{291b}\nlacute=\u{13a}\n\
    lagran=\u{2112}\nlambda=\u{3bb}\nlangle=\u{27e8}\nlarrfs=\u{291d}\nlarrhk=\u{21a9}\n\
    larrlp=\u{21ab}\nlarrpl=\u{2939}\nlarrtl=\u{21a2}\nlatail=\u{2919}\nlbrace={\nlbrack=[\n\
    lcaron=\u{13e}\nlcedil=\u{13c}\nldquor=\u{201e}\nlesdot=\u{2a7f}\nlesges=\u{2a93}\n\
    lfisht=\u{297c}\nlfloor=\u{230a}\nlharul=\u{296a}\nllhard=\u{296b}\nlmidot=\u{140}\n\
    lmoust=\u{23b0}\nloplus=\u{2a2d}\nlowast=\u{2217}\nlowbar=_\nlparlt=\u{2993}\n\
    lrhard=\u{296d}\nlsaquo=\u{2039}\nlsquor=\u{201a}\nlstrok=\u{142}\nlthree=\u{22cb}\n\
    ltimes=\u{22c9}\nltlarr=\u{2976}\nltrPar=\u{2996}\nlarrbfs=\u{291f}\nlarrsim=\u{2973}\n\
    lbrksld=\u{298f}\nlbrkslu=\u{298d}\nldrdhar=\u{2967}\nlesdoto=\u{2a81}\nlessdot=\u{22d6}\n\
    lessgtr=\u{2276}\nlesssim=\u{2272}\nlotimes=\u{2a34}\nlozenge=\u{25ca}\nltquest=\u{2a7b}\n\
    luruhar=\u{2966}\nlaemptyv=\u{29b4}\nldrushar=\u{294b}\nleqslant=\u{2a7d}\n\
    lesdotor=\u{2a83}\nllcorner=\u{231e}\nlnapprox=\u{2a89}\nlrcorner=\u{231f}\n\
    lurdshar=\u{294a}\nleftarrow=\u{2190}\nlesseqgtr=\u{22da}\nlvertneqq=\u{2268}\u{fe00}\n\
    lessapprox=\u{2a85}\nlesseqqgtr=\u{2a8b}\nlmoustache=\u{23b0}\nlongmapsto=\u{27fc}\n\
    leftarrowtail=\u{21a2}\nleftharpoonup=\u{21bc}\nlongleftarrow=\u{27f5}\n\
    looparrowleft=\u{21ab}\nleftleftarrows=\u{21c7}\nleftrightarrow=\u{2194}\n\
    leftthreetimes=\u{22cb}\nlongrightarrow=\u{27f6}\nlooparrowright=\u{21ac}\n\
    leftharpoondown=\u{21bd}\nleftrightarrows=\u{21c6}\nleftrightharpoons=\u{21cb}\n\
    longleftrightarrow=\u{27f7}\nleftrightsquigarrow=\u{21ad}";

/// Names that begin with `m`.
const LOWER_M: &str = "\
    mdash=\u{2014}\nmiddot=\u{b7}\nmp=\u{2213}\nmu=\u{3bc}\nmap=\u{21a6}\nmcy=\u{43c}\n\
    mfr=\u{1d52a}\nmho=\u{2127}\nmid=\u{2223}\nmacr=\u{af}\nmale=\u{2642}\nmalt=\u{2720}\n\
    mlcp=\u{2adb}\nmldr=\u{2026}\nmopf=\u{1d55e}\nmscr=\u{1d4c2}\nmDDot=\u{223a}\nmicro=\u{b5}\n\
    minus=\u{2212}\nmumap=\u{22b8}\nmapsto=\u{21a6}\nmarker=\u{25ae}\nmcomma=\u{2a29}\n\
    midast=*\nmidcir=\u{2af0}\nminusb=\u{229f}\nminusd=\u{2238}\nmnplus=\u{2213}\n\
    models=\u{22a7}\nmstpos=\u{223e}\nmaltese=\u{2720}\nminusdu=\u{2a2a}\nmapstoup=\u{21a5}\n\
    multimap=\u{22b8}\nmapstodown=\u{21a7}\nmapstoleft=\u{21a4}\nmeasuredangle=\u{2221}";

/// Names that begin with `n`.
const LOWER_N: &str = "\
    nbsp=\u{a0}\nndash=\u{2013}\nne=\u{2260}\nni=\u{220b}\nnu=\u{3bd}\nnGg=\u{22d9}\u{338}\n\
    nGt=\u{226b}\u{20d2}\nnLl=\u{22d8}\u{338}\nnLt=\u{226a}\u{20d2}\nnap=\u{2249}\nncy=\u{43d}\n\
    nfr=\u{1d52b}\nngE=\u{2267}\u{338}\nnge=\u{2271}\nngt=\u{226f}\nnis=\u{22fc}\nniv=\u{220b}\n\
    nlE=\u{2266}\u{338}\nnle=\u{2270}\nnlt=\u{226e}\nnot=\u{ac}\nnpr=\u{2280}\nnsc=\u{2281}\n\
    num=#\nnGtv=\u{226b}\u{338}\nnLtv=\u{226a}\u{338}\nnang=\u{2220}\u{20d2}\n\
    napE=\u{2a70}\u{338}\nncap=\u{2a43}\nncup=\u{2a42}\nngeq=\u{2271}\nnges=\u{2a7e}\u{338}\n\
    ngtr=\u{226f}\nnisd=\u{22fa}\nnjcy=\u{45a}\nnldr=\u{2025}\nnleq=\u{2270}\n\
    nles=\u{2a7d}\u{338}\nnmid=\u{2224}\nnopf=\u{1d55f}\nnpar=\u{2226}\nnpre=\u{2aaf}\u{338}\n\
    nsce=\u{2ab0}\u{338}\nnscr=\u{1d4c3}\nnsim=\u{2241}\nnsub=\u{2284}\nnsup=\u{2285}\n\
    ntgl=\u{2279}\nntlg=\u{2278}\nnvap=\u{224d}\u{20d2}\nnvge=\u{2265}\u{20d2}\nnvgt=>\u{20d2}\n\
    nvle=\u{2264}\u{20d2}\nnvlt=<\u{20d2}\nnabla=\u{2207}\nnapid=\u{224b}\u{338}\n\
    napos=\u{149}\nnatur=\u{266e}\nnbump=\u{224e}\u{338}\nncong=\u{2247}\nneArr=\u{21d7}\n\
    nearr=\u{2197}\nnedot=\u{2250}\u{338}\nnesim=\u{2242}\u{338}\nngeqq=\u{2267}\u{338}\n\
    ngsim=\u{2275}\nnhArr=\u{21ce}\nnharr=\u{21ae}\nnhpar=\u{2af2}\nnlArr=\u{21cd}\n\
    nlarr=\u{219a}\nnleqq=\u{2266}\u{338}\nnless=\u{226e}\nnlsim=\u{2274}\nnltri=\u{22ea}\n\
    notin=\u{2209}\nnotni=\u{220c}\nnpart=\u{2202}\u{338}\nnprec=\u{2280}\nnrArr=\u{21cf}\n\
    nrarr=\u{219b}\nnrtri=\u{22eb}\nnsime=\u{2244}\nnsmid=\u{2224}\nnspar=\u{2226}\n\
    nsubE=\u{2ac5}\u{338}\nnsube=\u{2288}\nnsucc=\u{2281}\nnsupE=\u{2ac6}\u{338}\n\
    nsupe=\u{2289}\nnumsp=\u{2007}\nnvsim=\u{223c}\u{20d2}\nnwArr=\u{21d6}\nnwarr=\u{2196}\n\
    nVDash=\u{22af}\nnVdash=\u{22ae}\nnacute=\u{144}\nnbumpe=\u{224f}\u{338}\nncaron=\u{148}\n\
    ncedil=\u{146}\nnearhk=\u{2924}\nnequiv=\u{2262}\nnesear=\u{2928}\nnexist=\u{2204}\n\
    nltrie=\u{22ec}\nnotinE=\u{22f9}\u{338}\nnparsl=\u{2afd}\u{20e5}\nnprcue=\u{22e0}\n\
    nrarrc=\u{2933}\u{338}\nnrarrw=\u{219d}\u{338}\nnrtrie=\u{22ed}\nnsccue=\u{22e1}\n\
    nsimeq=\u{2244}\nntilde=\u{f1}\nnumero=\u{2116}\nnvDash=\u{22ad}\nnvHarr=\u{2904}\n\
    nvdash=\u{22ac}\nnvlArr=\u{2902}\nnvrArr=\u{2903}\nnwarhk=\u{2923}\nnwnear=\u{2927}\n\
    napprox=\u{2249}\nnatural=\u{266e}\nnearrow=\u{2197}\nnexists=\u{2204}\nnotinva=\u{2209}\n\
    notinvb=\u{22f7}\nnotinvc=\u{22f6}\nnotniva=\u{220c}\nnotnivb=\u{22fe}\nnotnivc=\u{22fd}\n\
    npolint=\u{2a14}\nnpreceq=\u{2aaf}\u{338}\nnsqsube=\u{22e2}\nnsqsupe=\u{22e3}\n\
    nsubset=\u{2282}\u{20d2}\nnsucceq=\u{2ab0}\u{338}\nnsupset=\u{2283}\u{20d2}\n\
    nvinfin=\u{29de}\nnvltrie=\u{22b4}\u{20d2}\nnvrtrie=\u{22b5}\u{20d2}\nnwarrow=\u{2196}\n\
    naturals=\u{2115}\nncongdot=\u{2a6d}\u{338}\nnotindot=\u{22f5}\u{338}\n\
    ngeqslant=\u{2a7e}\u{338}\nnleqslant=\u{2a7d}\u{338}\nnparallel=\u{2226}\n\
    nshortmid=\u{2224}\nnsubseteq=\u{2288}\nnsupseteq=\u{2289}\nnLeftarrow=\u{21cd}\n\
    nleftarrow=\u{219a}\nnsubseteqq=\u{2ac5}\u{338}\nnsupseteqq=\u{2ac6}\u{338}\n\
    nRightarrow=\u{21cf}\nnrightarrow=\u{219b}\nntriangleleft=\u{22ea}\n\
    nshortparallel=\u{2226}\nntriangleright=\u{22eb}\nnLeftrightarrow=\u{21ce}\n\
    nleftrightarrow=\u{21ae}\nntrianglelefteq=\u{22ec}\nntrianglerighteq=\u{22ed}";

/// Names that begin with `o`.
const LOWER_O: &str = "\
    ouml=\u{f6}\noS=\u{24c8}\nor=\u{2228}\nocy=\u{43e}\nofr=\u{1d52c}\nogt=\u{29c1}\n\
    ohm=\u{3a9}\nolt=\u{29c0}\nord=\u{2a5d}\norv=\u{2a5b}\noast=\u{229b}\nocir=\u{229a}\n\
    odiv=\u{2a38}\nodot=\u{2299}\nogon=\u{2db}\noint=\u{222e}\nomid=\u{29b6}\noopf=\u{1d560}\n\
    opar=\u{29b7}\nordf=\u{aa}\nordm=\u{ba}\noror=\u{2a56}\noscr=\u{2134}\nosol=\u{2298}\n\
    ocirc=\u{f4}\nodash=\u{229d}\noelig=\u{153}\nofcir=\u{29bf}\nohbar=\u{29b5}\n\
    olarr=\u{21ba}\nolcir=\u{29be}\noline=\u{203e}\nomacr=\u{14d}\nomega=\u{3c9}\n\
    operp=\u{29b9}\noplus=\u{2295}\norarr=\u{21bb}\norder=\u{2134}\novbar=\u{233d}\n\
    oacute=\u{f3}\nodblac=\u{151}\nodsold=\u{29bc}\nograve=\u{f2}\nominus=\u{2296}\n\
    origof=\u{22b6}\noslash=\u{f8}\notilde=\u{f5}\notimes=\u{2297}\nolcross=\u{29bb}\n\
    omicron=\u{3bf}\norderof=\u{2134}\norslope=\u{2a57}\notimesas=\u{2a36}";

/// Names that begin with `p`.
const LOWER_P: &str = "\
    pound=\u{a3}\npara=\u{b6}\npi=\u{3c0}\npm=\u{b1}\npr=\u{227a}\npar=\u{2225}\npcy=\u{43f}\n\
    pfr=\u{1d52d}\nphi=\u{3c6}\npiv=\u{3d6}\nprE=\u{2ab3}\npre=\u{2aaf}\npsi=\u{3c8}\n\
    part=\u{2202}\nperp=\u{22a5}\nphiv=\u{3d5}\nplus=+\npopf=\u{1d561}\nprap=\u{2ab7}\n\
    prec=\u{227a}\nprnE=\u{2ab5}\nprod=\u{220f}\nprop=\u{221d}\npscr=\u{1d4c5}\nparsl=\u{2afd}\n\
    phone=\u{260e}\nplusb=\u{229e}\npluse=\u{2a72}\nprcue=\u{227c}\nprime=\u{2032}\n\
    prnap=\u{2ab9}\nprsim=\u{227e}\nparsim=\u{2af3}\npercnt=%\nperiod=.\npermil=\u{2030}\n\
    phmmat=\u{2133}\nplanck=\u{210f}\nplankv=\u{210f}\nplusdo=\u{2214}\nplusdu=\u{2a25}\n\
    plusmn=\u{b1}\npreceq=\u{2aaf}\nprimes=\u{2119}\nprnsim=\u{22e8}\npropto=\u{221d}\n\
    prurel=\u{22b0}\npuncsp=\u{2008}\npertenk=\u{2031}\nplanckh=\u{210e}\npluscir=\u{2a22}\n\
    plussim=\u{2a26}\nplustwo=\u{2a27}\nprecsim=\u{227e}\nparallel=\u{2225}\nplusacir=\u{2a23}\n\
    pointint=\u{2a15}\nprecneqq=\u{2ab5}\nprecnsim=\u{22e8}\nprofalar=\u{232e}\n\
    profline=\u{2312}\nprofsurf=\u{2313}\npitchfork=\u{22d4}\nprecapprox=\u{2ab7}\n\
    preccurlyeq=\u{227c}\nprecnapprox=\u{2ab9}";

/// Names that begin with `q`.
const LOWER_Q: &str = "\
    quot=\"\nqfr=\u{1d52e}\nqint=\u{2a0c}\nqopf=\u{1d562}\nqscr=\u{1d4c6}\nquest=?\n\
    qprime=\u{2057}\nquatint=\u{2a16}\nquesteq=\u{225f}\nquaternions=\u{210d}";

/// Names that begin with `r`.
const LOWER_R: &str = "\
    reg=\u{ae}\nrarr=\u{2192}\nrsquo=\u{2019}\nrdquo=\u{201d}\nraquo=\u{bb}\nrx=\u{211e}\n\
    rcy=\u{440}\nrfr=\u{1d52f}\nrho=\u{3c1}\nrlm=\u{200f}\nrsh=\u{21b1}\nrArr=\u{21d2}\n\
    rHar=\u{2964}\nrace=\u{223d}\u{331}\nrang=\u{27e9}\nrcub=}\nrdca=\u{2937}\nrdsh=\u{21b3}\n\
    real=\u{211c}\nrect=\u{25ad}\nrhov=\u{3f1}\nring=\u{2da}\nropf=\u{1d563}\nrpar=)\n\
    rscr=\u{1d4c7}\nrsqb=]\nrtri=\u{25b9}\nrAarr=\u{21db}\nrBarr=\u{290f}\nradic=\u{221a}\n\
    rangd=\u{2992}\nrange=\u{29a5}\nrarrb=\u{21e5}\nrarrc=\u{2933}\nrarrw=\u{219d}\n\
    ratio=\u{2236}\nrbarr=\u{290d}\nrbbrk=\u{2773}\nrbrke=\u{298c}\nrceil=\u{2309}\n\
    reals=\u{211d}\nrhard=\u{21c1}\nrharu=\u{21c0}\nrlarr=\u{21c4}\nrlhar=\u{21cc}\n\
    rnmid=\u{2aee}\nroang=\u{27ed}\nroarr=\u{21fe}\nrobrk=\u{27e7}\nropar=\u{2986}\n\
    rrarr=\u{21c9}\nrtrie=\u{22b5}\nrtrif=\u{25b8}\nrAtail=\u{291c}\nracute=\u{155}\n\
    rangle=\u{27e9}\nrarrap=\u{2975}\nrarrfs=\u{291e}\nrarrhk=\u{21aa}\nrarrlp=\u{21ac}\n\
    rarrpl=\u{2945}\nrarrtl=\u{21a3}\nratail=\u{291a}\nrbrace=}\nrbrack=]\nrcaron=\u{159}\n\
    rcedil=\u{157}\nrdquor=\u{201d}\nrfisht=\u{297d}\nrfloor=\u{230b}\nrharul=\u{296c}\n\
    rmoust=\u{23b1}\nroplus=\u{2a2e}\nrpargt=\u{2994}\nrsaquo=\u{203a}\nrsquor=\u{2019}\n\
    rthree=\u{22cc}\nrtimes=\u{22ca}\nrarrbfs=\u{2920}\nrarrsim=\u{2974}\nrbrksld=\u{298e}\n\
    rbrkslu=\u{2990}\nrdldhar=\u{2969}\nrealine=\u{211b}\nrotimes=\u{2a35}\nruluhar=\u{2968}\n\
    raemptyv=\u{29b3}\nrealpart=\u{211c}\nrppolint=\u{2a12}\nrtriltri=\u{29ce}\n\
    rationals=\u{211a}\nrightarrow=\u{2192}\nrmoustache=\u{23b1}\nrisingdotseq=\u{2253}\n\
    rightarrowtail=\u{21a3}\nrightharpoonup=\u{21c0}\nrightleftarrows=\u{21c4}\n\
    rightsquigarrow=\u{219d}\nrightthreetimes=\u{22cc}\nrightharpoondown=\u{21c1}\n\
    rightrightarrows=\u{21c9}\nrightleftharpoons=\u{21cc}";

/// Names that begin with `s`.
const LOWER_S: &str = "\
    szlig=\u{df}\nsect=\u{a7}\nsc=\u{227b}\nscE=\u{2ab4}\nsce=\u{2ab0}\nscy=\u{441}\n\
    sfr=\u{1d530}\nshy=\u{ad}\nsim=\u{223c}\nsmt=\u{2aaa}\nsol=/\nsqu=\u{25a1}\nsub=\u{2282}\n\
    sum=\u{2211}\nsup=\u{2283}\nscap=\u{2ab8}\nscnE=\u{2ab6}\nsdot=\u{22c5}\nsemi=;\n\
    sext=\u{2736}\nshcy=\u{448}\nsime=\u{2243}\nsimg=\u{2a9e}\nsiml=\u{2a9d}\nsmid=\u{2223}\n\
    smte=\u{2aac}\nsolb=\u{29c4}\nsopf=\u{1d564}\nspar=\u{2225}\nsquf=\u{25aa}\nsscr=\u{1d4c8}\n\
    star=\u{2606}\nsubE=\u{2ac5}\nsube=\u{2286}\nsucc=\u{227b}\nsung=\u{266a}\nsup1=\u{b9}\n\
    sup2=\u{b2}\nsup3=\u{b3}\nsupE=\u{2ac6}\nsupe=\u{2287}\nsbquo=\u{201a}\nsccue=\u{227d}\n\
    scirc=\u{15d}\nscnap=\u{2aba}\nscsim=\u{227f}\nsdotb=\u{22a1}\nsdote=\u{2a66}\n\
    seArr=\u{21d8}\nsearr=\u{2198}\nsetmn=\u{2216}\nsharp=\u{266f}\nsigma=\u{3c3}\n\
    simeq=\u{2243}\nsimgE=\u{2aa0}\nsimlE=\u{2a9f}\nsimne=\u{2246}\nslarr=\u{2190}\n\
    smile=\u{2323}\nsmtes=\u{2aac}\u{fe00}\nsqcap=\u{2293}\nsqcup=\u{2294}\nsqsub=\u{228f}\n\
    sqsup=\u{2290}\nsrarr=\u{2192}\nstarf=\u{2605}\nstrns=\u{af}\nsubnE=\u{2acb}\n\
    subne=\u{228a}\nsupnE=\u{2acc}\nsupne=\u{228b}\nswArr=\u{21d9}\nswarr=\u{2199}\n\
    sacute=\u{15b}\nscaron=\u{161}\nscedil=\u{15f}\nscnsim=\u{22e9}\nsearhk=\u{2925}\n\
    seswar=\u{2929}\nsfrown=\u{2322}\nshchcy=\u{449}\nsigmaf=\u{3c2}\nsigmav=\u{3c2}\n\
    simdot=\u{2a6a}\nsmashp=\u{2a33}\nsoftcy=\u{44c}\nsolbar=\u{233f}\nspades=\u{2660}\n\
    sqcaps=\u{2293}\u{fe00}\nsqcups=\u{2294}\u{fe00}\nsqsube=\u{2291}\nsqsupe=\u{2292}\n\
    square=\u{25a1}\nsquarf=\u{25aa}\nssetmn=\u{2216}\nssmile=\u{2323}\nsstarf=\u{22c6}\n\
    subdot=\u{2abd}\nsubset=\u{2282}\nsubsim=\u{2ac7}\nsubsub=\u{2ad5}\nsubsup=\u{2ad3}\n\
    succeq=\u{2ab0}\nsupdot=\u{2abe}\nsupset=\u{2283}\nsupsim=\u{2ac8}\nsupsub=\u{2ad4}\n\
    supsup=\u{2ad6}\nswarhk=\u{2926}\nswnwar=\u{292a}\nsearrow=\u{2198}\nsimplus=\u{2a24}\n\
    simrarr=\u{2972}\nsubedot=\u{2ac3}\nsubmult=\u{2ac1}\nsubplus=\u{2abf}\nsubrarr=\u{2979}\n\
    succsim=\u{227f}\nsupdsub=\u{2ad8}\nsupedot=\u{2ac4}\nsuphsol=\u{27c9}\nsuphsub=\u{2ad7}\n\
    suplarr=\u{297b}\nsupmult=\u{2ac2}\nsupplus=\u{2ac0}\nswarrow=\u{2199}\nscpolint=\u{2a13}\n\
    setminus=\u{2216}\nshortmid=\u{2223}\nsmeparsl=\u{29e4}\nsqsubset=\u{228f}\n\
    sqsupset=\u{2290}\nsubseteq=\u{2286}\nsuccneqq=\u{2ab6}\nsuccnsim=\u{22e9}\n\
    supseteq=\u{2287}\nspadesuit=\u{2660}\nsubseteqq=\u{2ac5}\nsubsetneq=\u{228a}\n\
    supseteqq=\u{2ac6}\nsupsetneq=\u{228b}\nsqsubseteq=\u{2291}\nsqsupseteq=\u{2292}\n\
    subsetneqq=\u{2acb}\nsuccapprox=\u{2ab8}\nsupsetneqq=\u{2acc}\nstraightphi=\u{3d5}\n\
    succcurlyeq=\u{227d}\nsuccnapprox=\u{2aba}\nshortparallel=\u{2225}\nsmallsetminus=\u{2216}\n\
    straightepsilon=\u{3f5}";

/// Names that begin with `t`.
const LOWER_T: &str = "\
    times=\u{d7}\ntrade=\u{2122}\ntau=\u{3c4}\ntcy=\u{442}\ntfr=\u{1d531}\ntop=\u{22a4}\n\
    tbrk=\u{23b4}\ntdot=\u{20db}\ntint=\u{222d}\ntoea=\u{2928}\ntopf=\u{1d565}\ntosa=\u{2929}\n\
    trie=\u{225c}\ntscr=\u{1d4c9}\ntscy=\u{446}\ntheta=\u{3b8}\nthkap=\u{2248}\nthorn=\u{fe}\n\
    tilde=\u{2dc}\ntrisb=\u{29cd}\ntshcy=\u{45b}\ntwixt=\u{226c}\ntarget=\u{2316}\n\
    tcaron=\u{165}\ntcedil=\u{163}\ntelrec=\u{2315}\nthere4=\u{2234}\nthetav=\u{3d1}\n\
    thinsp=\u{2009}\nthksim=\u{223c}\ntimesb=\u{22a0}\ntimesd=\u{2a30}\ntopbot=\u{2336}\n\
    topcir=\u{2af1}\ntprime=\u{2034}\ntridot=\u{25ec}\ntstrok=\u{167}\ntopfork=\u{2ada}\n\
    triplus=\u{2a39}\ntritime=\u{2a3b}\nthetasym=\u{3d1}\nthicksim=\u{223c}\ntimesbar=\u{2a31}\n\
    triangle=\u{25b5}\ntriminus=\u{2a3a}\ntrpezium=\u{23e2}\ntherefore=\u{2234}\n\
    triangleq=\u{225c}\nthickapprox=\u{2248}\ntriangledown=\u{25bf}\ntriangleleft=\u{25c3}\n\
    triangleright=\u{25b9}\ntrianglelefteq=\u{22b4}\ntrianglerighteq=\u{22b5}\n\
    twoheadleftarrow=\u{219e}\ntwoheadrightarrow=\u{21a0}";

/// Names that begin with `u`.
const LOWER_U: &str = "\
    uuml=\u{fc}\nucy=\u{443}\nufr=\u{1d532}\numl=\u{a8}\nuArr=\u{21d1}\nuHar=\u{2963}\n\
    uarr=\u{2191}\nuopf=\u{1d566}\nupsi=\u{3c5}\nuscr=\u{1d4ca}\nutri=\u{25b5}\nubrcy=\u{45e}\n\
    ucirc=\u{fb}\nudarr=\u{21c5}\nudhar=\u{296e}\nuharl=\u{21bf}\nuharr=\u{21be}\n\
    uhblk=\u{2580}\nultri=\u{25f8}\numacr=\u{16b}\nuogon=\u{173}\nuplus=\u{228e}\n\
    upsih=\u{3d2}\nuring=\u{16f}\nurtri=\u{25f9}\nutdot=\u{22f0}\nutrif=\u{25b4}\n\
    uuarr=\u{21c8}\nuacute=\u{fa}\nubreve=\u{16d}\nudblac=\u{171}\nufisht=\u{297e}\n\
    ugrave=\u{f9}\nulcorn=\u{231c}\nulcrop=\u{230f}\nurcorn=\u{231d}\nurcrop=\u{230e}\n\
    utilde=\u{169}\nuparrow=\u{2191}\nupsilon=\u{3c5}\nuwangle=\u{29a7}\nulcorner=\u{231c}\n\
    urcorner=\u{231d}\nupuparrows=\u{21c8}\nupdownarrow=\u{2195}\nupharpoonleft=\u{21bf}\n\
    upharpoonright=\u{21be}";

/// Names that begin with `v`.
const LOWER_V: &str = "\
    vcy=\u{432}\nvee=\u{2228}\nvfr=\u{1d533}\nvArr=\u{21d5}\nvBar=\u{2ae8}\nvarr=\u{2195}\n\
    vert=|\nvopf=\u{1d567}\nvscr=\u{1d4cb}\nvBarv=\u{2ae9}\nvDash=\u{22a8}\nvarpi=\u{3d6}\n\
    vdash=\u{22a2}\nveeeq=\u{225a}\nvltri=\u{22b2}\nvnsub=\u{2282}\u{20d2}\n\
    vnsup=\u{2283}\u{20d2}\nvprop=\u{221d}\nvrtri=\u{22b3}\nvangrt=\u{299c}\nvarphi=\u{3d5}\n\
    varrho=\u{3f1}\nveebar=\u{22bb}\nvellip=\u{22ee}\nverbar=|\nvsubnE=\u{2acb}\u{fe00}\n\
    vsubne=\u{228a}\u{fe00}\nvsupnE=\u{2acc}\u{fe00}\nvsupne=\u{228b}\u{fe00}\n\
    vzigzag=\u{299a}\nvarkappa=\u{3f0}\nvarsigma=\u{3c2}\nvartheta=\u{3d1}\nvarpropto=\u{221d}\n\
    varepsilon=\u{3f5}\nvarnothing=\u{2205}\nvarsubsetneq=\u{228a}\u{fe00}\n\
    varsupsetneq=\u{228b}\u{fe00}\nvarsubsetneqq=\u{2acb}\u{fe00}\n\
    varsupsetneqq=\u{2acc}\u{fe00}\nvartriangleleft=\u{22b2}\nvartriangleright=\u{22b3}";

/// Names that begin with `w`.
const LOWER_W: &str = "\
    wp=\u{2118}\nwr=\u{2240}\nwfr=\u{1d534}\nwopf=\u{1d568}\nwscr=\u{1d4cc}\nwcirc=\u{175}\n\
    wedge=\u{2227}\nwedbar=\u{2a5f}\nwedgeq=\u{2259}\nweierp=\u{2118}\nwreath=\u{2240}";

/// Names that begin with `x`.
const LOWER_X: &str = "\
    xi=\u{3be}\nxfr=\u{1d535}\nxcap=\u{22c2}\nxcup=\u{22c3}\nxmap=\u{27fc}\nxnis=\u{22fb}\n\
    xopf=\u{1d569}\nxscr=\u{1d4cd}\nxvee=\u{22c1}\nxcirc=\u{25ef}\nxdtri=\u{25bd}\n\
    xhArr=\u{27fa}\nxharr=\u{27f7}\nxlArr=\u{27f8}\nxlarr=\u{27f5}\nxodot=\u{2a00}\n\
    xrArr=\u{27f9}\nxrarr=\u{27f6}\nxutri=\u{25b3}\nxoplus=\u{2a01}\nxotime=\u{2a02}\n\
    xsqcup=\u{2a06}\nxuplus=\u{2a04}\nxwedge=\u{22c0}";

/// Names that begin with `y`.
const LOWER_Y: &str = "\
    yen=\u{a5}\nycy=\u{44b}\nyfr=\u{1d536}\nyacy=\u{44f}\nyicy=\u{457}\nyopf=\u{1d56a}\n\
    yscr=\u{1d4ce}\nyucy=\u{44e}\nyuml=\u{ff}\nycirc=\u{177}\nyacute=\u{fd}";

/// Names that begin with `z`.
const LOWER_Z: &str = "\
    zcy=\u{437}\nzfr=\u{1d537}\nzwj=\u{200d}\nzdot=\u{17c}\nzeta=\u{3b6}\nzhcy=\u{436}\n\
    zopf=\u{1d56b}\nzscr=\u{1d4cf}\nzwnj=\u{200c}\nzacute=\u{17a}\nzcaron=\u{17e}\n\
    zeetrf=\u{2128}\nzigrarr=\u{21dd}";
